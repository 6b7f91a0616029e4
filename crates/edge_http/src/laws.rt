// Laws of the definitions.
ghost use Rattle.std.specs.Prelude.{◌≡◌, ℕ, List};
ghost use Rattle.edge_heads.specs.declared.values.Side.{Side as SideOf};
ghost use Rattle.std.specs.Prelude.{◌++◌, ◌∷◌, ◌⊎◌, Some};
ghost use Rattle.edge_heads.specs.declared.values.BodyForm.{BodyForm as FormOf};
ghost use Rattle.edge_heads.specs.declared.values.HttpFail.{HttpFail as FailOf};
ghost use Rattle.edge_http.specs.declared.messages.HttpMessage.{HttpMessage as MessageOf};
ghost use Rattle.edge_heads.specs.Bodies.{Body, IsBody, print_body};
ghost use Rattle.edge_http.specs.Streams.{Rest, Open, Failed, Continues, StillUnderWay, Begins, Reads, IsBodyBegun, IsHttpStream, HttpStreamFault};

use crate::{BODY_LIMIT, PACKAGE_LIMIT};

/// Of the body after a head one thing is told: it is there, or it is begun.
pub fn one_body()
    ensures there { (limit : ℕ) (form : FormOf) (a b : Body) (r q : List ℕ) → IsBody limit form a → IsBody limit form b → print_body a ++ r ≡ print_body b ++ q → (a ≡ b) × (r ≡ q) }
    ensures begun { (limit : ℕ) (form : FormOf) (bytes c d : List ℕ) → IsBodyBegun limit form bytes c → IsBodyBegun limit form bytes d → c ≡ d }
    ensures apart { (limit : ℕ) (form : FormOf) (body : Body) (rest c : List ℕ) → IsBody limit form body → ¬ (IsBodyBegun limit form (print_body body ++ rest) c) }
{}

/// At most one reading of bytes holds. What a longer stream has begins with what the shorter one had, and a fault stays.
pub fn one_reading()
    ensures same { (side : SideOf) (limit : ℕ) (bytes : List ℕ) (ms ks : List MessageOf) (s t : Rest) → Reads side limit bytes ms s → Reads side limit bytes ks t → (ms ≡ ks) × (s ≡ t) }
    ensures begins { (side : SideOf) (limit : ℕ) (bytes more : List ℕ) (ms ks : List MessageOf) (rest : List ℕ) (t : Rest)
        → Begins side limit bytes ms rest → Reads side limit (bytes ++ more) ks t → (later : List MessageOf) × (ks ≡ ms ++ later) }
    ensures under_way { (side : SideOf) (limit : ℕ) (bytes more : List ℕ) (ms ks : List MessageOf) (m : MessageOf) (t : Rest)
        → Reads side limit bytes ms (Open (Some m)) → Reads side limit (bytes ++ more) ks t
        → ((now : MessageOf) × (later : List MessageOf) × Continues m now × (ks ≡ ms ++ now ∷ later)) ⊎ ((ks ≡ ms) × StillUnderWay m t) }
    ensures stays { (side : SideOf) (limit : ℕ) (bytes more : List ℕ) (ms : List MessageOf) (why : FailOf)
        → Reads side limit bytes ms (Failed why) → Reads side limit (bytes ++ more) ms (Failed why) }
    ensures one_fault { (side : SideOf) (limit : ℕ) (bytes more : List ℕ) (why other : FailOf)
        → HttpStreamFault side limit bytes why → HttpStreamFault side limit (bytes ++ more) other → why ≡ other }
{}

/// Bytes are whole messages and a rest in one way, and what is read of them is those messages.
pub fn one_stream()
    ensures same { (side : SideOf) (limit : ℕ) (bytes : List ℕ) (ms ks : List MessageOf) (r q : List ℕ) → IsHttpStream side limit bytes ms r → IsHttpStream side limit bytes ks q → (ms ≡ ks) × (r ≡ q) }
    ensures reads { (side : SideOf) (limit : ℕ) (bytes : List ℕ) (ms : List MessageOf) (s : Rest) → Reads side limit bytes ms s → (rest : List ℕ) × IsHttpStream side limit bytes ms rest }
{}

/// The limits of a body: of a message, and of a package.
pub fn body_limits()
    ensures message { BODY_LIMIT ≡ 4194304 }
    ensures package { PACKAGE_LIMIT ≡ 16777216 }
{}
