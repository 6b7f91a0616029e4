//! What holds of all scripts, and what the grammar says of worked ones. No function here does anything: each stands for its clauses.
#![tactic(auto, unfolding(crate::specs::Lines::line_in, crate::specs::Lines::line_of_one, crate::specs::Lines::line_of_two, crate::specs::Lines::line_of_three, crate::specs::Lines::line_of_four, crate::specs::Words::hex_number, crate::specs::Words::capabilities_in, crate::specs::Words::decimal_number, crate::specs::Words::mode_named, crate::specs::Storms::next_state, crate::specs::Storms::line_chosen, crate::specs::Storms::rare_line))]

ghost use Rattle.std.specs.Prelude.{◌≡◌, ◌⊎◌, ℕ, List, [], ◌∷◌, IsTrue, is_none, Some, codes};
ghost use Rattle.std.specs.List.{list_all};
ghost use Rattle.world_scripts.specs.declared.lines.Line.{Line};
ghost use Rattle.world_scripts.specs.Cuts.{lines_in};
ghost use Rattle.world_scripts.specs.Lines.{line_in};
ghost use Rattle.world_scripts.specs.Scripts.{Says, BadLineBegins, first_bad_line};
ghost use Rattle.world_scripts.specs.Storms.{next_state, next_line};

use crate::lines::Line;
use crate::scripts::SCRIPT_LIMIT;
use edge_devices::Mode;

/// Law: bytes say one list of lines, or have a first line outside the grammar, never both.
pub fn read_or_bad()
    ensures either { (bytes : List ℕ) → ((lines : List Line) × Says bytes lines) ⊎ ((at : ℕ) × (first_bad_line (lines_in bytes) ≡ Some at)) }
    ensures one { (bytes : List ℕ) (lines others : List Line) → Says bytes lines → Says bytes others → lines ≡ others }
    ensures apart { (bytes : List ℕ) (lines : List Line) (at : ℕ) → Says bytes lines → first_bad_line (lines_in bytes) ≡ Some at → ⊥ }
{}

/// Law: the place of the first bad line is that of its first byte.
pub fn bad_line_begins()
    ensures begins { (bytes : List ℕ) (at : ℕ) → first_bad_line (lines_in bytes) ≡ Some at → BadLineBegins bytes at }
{}

/// Law: the most bytes that a script may have are this many.
pub fn limits()
    ensures script { SCRIPT_LIMIT ≡ 1048576 }
{}

/// What the grammar says of worked scripts.
pub fn worked_scripts()
    ensures read { Says (codes "custom x\nsend\ndeliver 1\nreply\nattr a b\nhealth bad no\nsend\n")
        (Line.Custom (codes "x") ∷ Line.Send ∷ Line.Deliver 1 ∷ Line.Reply ∷ Line.Attr (codes "a") (codes "b")
        ∷ Line.HealthBad (codes "no") ∷ Line.Send ∷ []) }

    // The last line feed may be left out, and no bytes are no lines.
    ensures open_end { Says (codes "giveup\nhealth ok") (Line.GiveUp ∷ Line.HealthOk ∷ []) }
    ensures no_bytes { Says [] [] }
    ensures others { Says (codes "caps 0901\neffective f {}\nserver-restart 9\nrecord 0\nactive\ndeliver 999999")
        (Line.Caps 0x901 ∷ Line.Effective (codes "f") (codes "{}") ∷ Line.ServerRestart 9 ∷ Line.Record 0 ∷ Line.Active ∷ Line.Deliver 999999 ∷ []) }

    ensures offers { Says (codes "restart\noffer-config 0 a.yaml v\noffer-connection 9 wss://s1\ncomponent x\ncaps 4801")
        (Line.Restart ∷ Line.OfferConfig 0 (codes "a.yaml") (codes "v") ∷ Line.OfferConnection 9 (codes "wss://s1") ∷ Line.Component (codes "x")
        ∷ Line.Caps 0x4801 ∷ []) }

    ensures stops { Says (codes "stop 1 old\nstop 999999 new\nstop 4 torn")
        (Line.Stop 1 Mode.Old ∷ Line.Stop 999999 Mode.New ∷ Line.Stop 4 Mode.Torn ∷ []) }

    ensures pushes { Says (codes "push 0\ntake-push\npush 9") (Line.Push 0 ∷ Line.TakePush ∷ Line.Push 9 ∷ []) }

    // The place of the first bad line counts the line feeds before it.
    ensures bad { first_bad_line (lines_in (codes "send\nfly\n")) ≡ Some 5 }
    ensures bad_in_front { first_bad_line (lines_in (codes "fly\nfly")) ≡ Some 0 }
    ensures empty_line { first_bad_line (lines_in (codes "send\n\nsend")) ≡ Some 5 }
    ensures only_line_feed { first_bad_line (lines_in (codes "\n")) ≡ Some 0 }
{}

/// Lines outside the grammar.
pub fn worked_refusals()
    ensures capabilities { IsTrue (list_all (λ line. is_none (line_in line))
        (codes "caps 8000" ∷ codes "caps 7D1F" ∷ codes "caps" ∷ codes "caps 0x1" ∷ codes "caps 00000000000000001" ∷ [])) }
    ensures numbers { IsTrue (list_all (λ line. is_none (line_in line))
        (codes "deliver 0" ∷ codes "deliver 01" ∷ codes "deliver 1000000" ∷ codes "deliver +1" ∷ codes "deliver " ∷ codes "record 10" ∷ [])) }
    ensures blanks { IsTrue (list_all (λ line. is_none (line_in line))
        (codes "send " ∷ codes " send" ∷ codes "attr  a b" ∷ codes "attr a b " ∷ codes "attr a" ∷ codes "attr a b c" ∷ [])) }
    ensures words { IsTrue (list_all (λ line. is_none (line_in line))
        (codes "" ∷ codes "Send" ∷ codes "restart 0" ∷ codes "component" ∷ codes "health" ∷ codes "health good" ∷ codes "health bad" ∷ codes "health ok ok" ∷ [])) }
    ensures offers { IsTrue (list_all (λ line. is_none (line_in line))
        (codes "offer-config 10 a b" ∷ codes "offer-config 0 a" ∷ codes "offer-config 0 a b c" ∷ codes "offer-connection 0" ∷ codes "offer-connection s http://s0" ∷ [])) }
    ensures stops { IsTrue (list_all (λ line. is_none (line_in line))
        (codes "stop 0 old" ∷ codes "stop 01 old" ∷ codes "stop 1" ∷ codes "stop 1 Old" ∷ codes "stop 1 old old" ∷ codes "stop old 1" ∷ codes "stop 1000000 torn" ∷ [])) }
    ensures pushes { IsTrue (list_all (λ line. is_none (line_in line))
        (codes "push" ∷ codes "push 10" ∷ codes "push 0 0" ∷ codes "take-push 0" ∷ codes "takepush" ∷ [])) }
    ensures endpoints { IsTrue (list_all (λ line. is_none (line_in line))
        (codes "offer-connection 0 http://s" ∷ codes "offer-connection 0 http://s10" ∷ codes "offer-connection 0 ws://s0" ∷ codes "offer-connection 0 HTTP://s0" ∷ [])) }
{}

/// What a storm draws in worked states, one or two for each row of its table.
pub fn worked_draws()
    ensures state { next_state 7 ≡ 9098160460397411210 }
    ensures first_choices { (next_line 5 7 ≡ Line.Send) × (next_line 10 7 ≡ Line.Send) × (next_line 39 7 ≡ Line.Send) × (next_line 3 7 ≡ Line.Send) × (next_line 8 7 ≡ Line.Send) }
    ensures last { (next_line 13 7 ≡ Line.Deliver 7) × (next_line 1 7 ≡ Line.Deliver 7) × (next_line 6 7 ≡ Line.Deliver 7) × (next_line 11 7 ≡ Line.Deliver 7) }
    ensures replies { (next_line 16 7 ≡ Line.Reply) × (next_line 4 7 ≡ Line.Reply) × (next_line 9 7 ≡ Line.Reply) }
    ensures any { next_line 2 7 ≡ Line.Deliver 5 }
    ensures none_sent { (next_line 1 0 ≡ Line.Send) × (next_line 2 0 ≡ Line.Send) }
    ensures health { (next_line 19 7 ≡ Line.HealthOk) × (next_line 31 7 ≡ Line.HealthBad (codes "e")) }
    ensures gives_up { next_line 7 7 ≡ Line.GiveUp }
    ensures restarts { (next_line 12 7 ≡ Line.Restart) × (next_line 24 7 ≡ Line.ServerRestart 0) }
    ensures attribute { next_line 53 7 ≡ Line.Attr (codes "k6") (codes "v6") }
    ensures record_asked { next_line 0 7 ≡ Line.Record 0 }
{}
