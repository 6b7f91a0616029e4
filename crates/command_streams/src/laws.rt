// Laws over the definitions of reading and of runs, and the numbers of this crate. Each is the contract of a function that does nothing.
ghost use Rattle.std.specs.Prelude.{◌≡◌, ◌+◌, ◌<◌, ℕ, [], List, drop, length, Option, Some, Result};
ghost use Rattle.std.specs.Io.KnownBytes.{IsAtEnd};
ghost use Rattle.message_codec.specs.Fields.{AreBytes};
ghost use Rattle.command_streams.specs.declared.TheConstants.{MESSAGE_LIMIT};
ghost use Rattle.command_streams.specs.declared.front.TheConstants.{HEADER};
ghost use Rattle.command_streams.specs.declared.held.TheConstants.{BLOCK};
ghost use Rattle.command_streams.specs.declared.blocks.TheConstants.{BLOCK_BYTES};
ghost use Rattle.command_streams.specs.declared.front.Front.TheVariants.{Frame};
ghost use Rattle.command_streams.specs.declared.held.Supply.{Supply};
ghost use Rattle.command_streams.specs.declared.stop.Stop.TheVariants.{Spent};
ghost use Rattle.command_streams.specs.declared.stop.Stop.{Stop};
ghost use Rattle.command_streams.specs.declared.stop.OutputForm.{OutputForm};
ghost use Rattle.command_streams.specs.declared.stop.RunFail.{RunFail};
ghost use Rattle.command_streams.specs.Blocks.{StopsInHeld};
ghost use Rattle.command_streams.specs.Framing.{IsPartial};
ghost use Rattle.command_streams.specs.Fronts.{FrontIs, Wants, front_message};
ghost use Rattle.command_streams.specs.Held.{HeldState, taken_of};
ghost use Rattle.command_streams.specs.Made.{IsSingleValued, Writes};
ghost use Rattle.command_streams.specs.Progress.{IsReadTo, Passes};
ghost use Rattle.command_streams.specs.Supplies.{Fills, end_stop};
ghost use Rattle.command_streams.specs.Reading.{IsLeft, Reads, Step};
ghost use Rattle.command_streams.specs.Output.{Answers, Framed, EndsBy};
ghost use Rattle.command_streams.specs.Telling.{IsTotal, Carries};
ghost use Rattle.command_streams.specs.Replies.{TakesAll, WritesAllTaken, WritesBeforeLast};

use crate::handler::Told;

/// The numbers of framed streams: the bytes of the largest message, the bytes of a length, how many bytes more than a frame takes are asked for, and the bytes
/// of a block that is filled.
pub fn limits()
    ensures message { MESSAGE_LIMIT ≡ 4194304 }
    ensures header { HEADER ≡ 4 }
    ensures block { BLOCK ≡ 65536 }
    ensures block_bytes { BLOCK_BYTES ≡ 16777232 }
{}

/// Law: one input has one reading, by a command of which one thing is made of a message in a state. The steps are the same, and so is the stop behind them.
pub fn one_reading<C: Told>()
    ensures reading { IsSingleValued C.makes → (start : C.State) (budget : ℕ) (bytes : List ℕ) (a b : List (Step C.State)) (stop_a stop_b : Stop)
        → Reads C.makes start budget bytes a stop_a → Reads C.makes start budget bytes b stop_b → (a ≡ b) × (stop_a ≡ stop_b) }
{}

/// Law: each input has a reading, by a command of which something is made of each message in each state.
pub fn some_reading<C: Told>()
    ensures reading { IsTotal C.makes → (start : C.State) (budget : ℕ) (bytes : List ℕ) → AreBytes bytes
        → (steps : List (Step C.State)) × (stop : Stop) × Reads C.makes start budget bytes steps stop }
{}

/// Law: a run over an input that is told ends by the input's one reading, or by a fault of the source, a fault of the sink or want of memory.
pub fn one_ending<C: Told>()
    ensures ending { IsSingleValued C.makes → (form : OutputForm) (start : C.State) (budget : ℕ) (bytes : List ℕ) (steps : List (Step C.State)) (stop : Stop) (old new : Option (List ℕ)) (status : ℕ)
        → Reads C.makes start budget bytes steps stop → Framed form C.makes start budget (Some bytes) old new status → EndsBy form steps stop old new status }
{}

/// Law: what a run of a handler answered is what is told of it, where each step of the handler is a step of what is told.
pub fn run_is_told<C: Told>()
    ensures answers { Carries C.tells C.gives C.makes → (form : OutputForm) (kept : C) (start : C.State) (budget : ℕ) (input old new : Option (List ℕ)) (ending : Result Stop RunFail)
        → C.tells kept start → Answers form C.gives kept budget input old new ending → Answers form C.makes start budget input old new ending }
    ensures written { Carries C.tells C.gives C.makes → (kept : C) (start : C.State) (left left_after old new : Option (List ℕ))
        → C.tells kept start → WritesAllTaken C.gives kept left left_after old new → WritesAllTaken C.makes start left left_after old new }
    ensures before_last { Carries C.tells C.gives C.makes → (kept : C) (start : C.State) (budget : ℕ) (left left_after old new : Option (List ℕ))
        → C.tells kept start → WritesBeforeLast C.gives kept budget left left_after old new → WritesBeforeLast C.makes start budget left left_after old new }
{}

/// Law: a command passes over frames, one behind the other. The number of bytes that were taken stays. What needs more bytes is less than a frame.
pub fn frames_pass<C: Told>()
    ensures none { (state : C.State) (held : HeldState) → Passes C.makes state state held held }
    ensures one { (state after : C.State) (old new : HeldState) (len : ℕ) (output : List ℕ) → FrontIs old.bytes (Frame len)
        → new.at ≡ old.at + (4 + len) → new.bytes ≡ drop (4 + len) old.bytes → C.makes state (front_message len old.bytes) (Writes output) after → Passes C.makes state after old new }
    ensures behind { (a b c : C.State) (h i j : HeldState) → Passes C.makes a b h i → Passes C.makes b c i j → Passes C.makes a c h j }
    ensures taken { (start now : C.State) (old new : HeldState) → Passes C.makes start now old new → taken_of new ≡ taken_of old }
    ensures cut { (bytes : List ℕ) (need : ℕ) → Wants bytes need → IsPartial bytes }
{}

/// Law: a reading block by block: where nothing is held yet, once a block is filled, and once frames at its front are passed over.
pub fn blocks_are_read<C: Told>()
    ensures start { (start : C.State) (budget room : ℕ) (input : Option (List ℕ)) → IsReadTo C.makes start budget (record { at = 0; bytes = []; room = room }) start input input }
    ensures filled { (start : C.State) (budget : ℕ) (held held' : HeldState) (state : C.State) (input left left' : Option (List ℕ)) (supply : Supply)
        → IsReadTo C.makes start budget held state input left → (fills : Fills budget held held' left left' supply) → IsReadTo C.makes start budget held' state input fills.last }
    ensures passed { (start : C.State) (budget : ℕ) (held held' : HeldState) (state state' : C.State) (input left : Option (List ℕ))
        → IsReadTo C.makes start budget held state input left → Passes C.makes state state' held held' → IsReadTo C.makes start budget held' state' input left }
{}

/// Law: a reading block by block takes all messages, up to a stop at what is held, the end of the input behind less than a frame, or the end of the budget there.
pub fn blocks_are_one_input<C: Told>()
    ensures stopped { (start : C.State) (budget : ℕ) (held : HeldState) (state now : C.State) (input left : Option (List ℕ)) (stop : Stop)
        → IsReadTo C.makes start budget held state input left → StopsInHeld C.makes state held stop → IsLeft C.makes state now → TakesAll C.makes start now budget input stop }
    ensures ended { (start : C.State) (budget : ℕ) (held : HeldState) (state : C.State) (input left : Option (List ℕ))
        → IsReadTo C.makes start budget held state input left → IsPartial held.bytes → taken_of held < budget → IsAtEnd left → TakesAll C.makes start state budget input (end_stop held.at held.bytes) }
    ensures spent { (start : C.State) (budget : ℕ) (held : HeldState) (state : C.State) (input left : Option (List ℕ))
        → IsReadTo C.makes start budget held state input left → IsPartial held.bytes → taken_of held ≡ budget → TakesAll C.makes start state budget input Spent }
{}
