//! What holds of the limits and of the constant answers. No function here does anything: each stands for its clauses.

ghost use Rattle.std.specs.Prelude.{◌≡◌, [], None, true, codes, pos};
ghost use Rattle.server_core.specs.Replies.{error_alone};
ghost use Rattle.message_replies.specs.Canonical.{canonical_reply};
ghost use Rattle.message_replies.specs.Header.{wrapped};
ghost use Rattle.edge_http.specs.Writing.{response_text};

use crate::answers::limits::{
    BAD_MESSAGE, BAD_WORDS, HTTP_NO_MEMORY, LINE_LIMIT, LINE_NO_MEMORY, WS_NO_MEMORY,
};

/// Law: the limits are these numbers, which are this project's own.
pub fn session_numbers()
    ensures line { LINE_LIMIT ≡ 4194304 }
{}

/// Law: the constant answers are these. That of HTTP is the response 503 that closes, without a body. Those of WebSocket are the
/// header and a reply with nothing but an error, of type 1 for what is no report and of type 2 for want of memory.
pub fn constant_answers()
    ensures http { HTTP_NO_MEMORY ≡ response_text 503 [] true }
    ensures bad_message { BAD_MESSAGE ≡ wrapped (canonical_reply (error_alone [] (record { kind = pos 1; error_message = codes "bad message"; retry_info = None }))) }
    ensures no_memory { WS_NO_MEMORY ≡ wrapped (canonical_reply (error_alone [] (record { kind = pos 2; error_message = codes "no memory"; retry_info = None }))) }
    ensures line { LINE_NO_MEMORY ≡ codes "refused: no memory\n" }
    ensures words { BAD_WORDS ≡ codes "refused: words\n" }
{}
