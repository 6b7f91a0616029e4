//! The answer to one message of a session: the payload of a message of WebSocket, a request of HTTP, by its head and by the report that its body
//! is read as, an order of an operator.

mod answering;
mod bodies;
mod laws;
mod limits;
mod orders;
mod payloads;
mod plain;
mod replying;
mod reports;
mod requests;
mod stepped;

pub use bodies::BodyReader;
pub use laws::{constant_answers, session_numbers};
pub use limits::{
    BAD_MESSAGE, BAD_WORDS, HTTP_NO_MEMORY, LINE_LIMIT, LINE_NO_MEMORY, WS_NO_MEMORY,
};
pub use orders::run_noting;
pub use payloads::answer_payload;
pub use requests::{answer_body, failure_bytes, refusal_bytes, refusal_of};
pub use stepped::{Entry, Handled, Stepped};
