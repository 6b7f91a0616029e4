//! What the bytes that follow a request come to.

ghost use Rattle.std.specs.Prelude.{◌≡◌, ◌++◌, [], ℕ, List, IfOk, None, option_to_list};
ghost use Rattle.edge_http.specs.Polled.{HasPolled};
ghost use Rattle.edge_dialer.specs.Answers.{ReceivedIs, answer_of, may_stay};

use crate::failures::reader_fail;
use edge_devices::LinkFail;
use edge_http::{HttpMessage, PollReader};
use plain_values::Blob;

// Reads one more piece of what follows a request, and gives the first response of the bytes that came, where it is whole.
pub(crate) fn receive_piece(
    reader: &mut PollReader,
    piece: &[u8],
) -> Result<Option<HttpMessage>, LinkFail>
    requires fresh { reader.old.ready ≡ [] }
    ensures kind { (reader.new.parts.side ≡ reader.old.parts.side) × (reader.new.parts.limit ≡ reader.old.parts.limit) }
    ensures still { IfOk result (λ message. message ≡ None → reader.new.ready ≡ []) }
    ensures polled { (bytes : List ℕ) → HasPolled reader.old bytes [] → IfOk result (λ message. HasPolled reader.new (bytes ++ piece.now) (option_to_list message)) }
    ensures received { (bytes : List ℕ) → HasPolled reader.old bytes [] → ReceivedIs reader.old.parts.side reader.old.parts.limit (bytes ++ piece.now) result }
{
    let fed = reader.feed(piece);
    match reader.take() {
        Some(message) => Ok(Some(message)),
        None => match fed {
            Ok(()) => Ok(None),
            Err(fail) => Err(reader_fail(fail)),
        },
    }
}

// The body of a response that is an answer: one with the status 200 (RFC 9110, 15.3.1) whose content has no coding (8.4).
pub(crate) fn answer_in(message: HttpMessage) -> Result<Blob, LinkFail>
    ensures { result ≡ answer_of message }
{
    if message.status == 200 && !message.coded {
        Ok(message.body)
    } else {
        Err(LinkFail::Fault)
    }
}

// Whether the connection can serve a further request behind this response: it says nothing else (RFC 9112, 9.3), and
// nothing at all came behind it.
pub(crate) fn stays_open(message: &HttpMessage, alone: bool) -> bool
    ensures { result ≡ may_stay message.now alone }
{
    !message.close && alone
}
