//! How serving went, written and as a status.

ghost use Rattle.std.specs.Prelude.{◌≡◌, ℕ, List, string_bytes, take, IfOk, true, false};
ghost use Rattle.std.specs.Io.KnownBytes.{Appends};
ghost use Rattle.edge_devices.specs.Faults.{HasRisen};

use crate::status::ServeStatus;
use edge_devices::Sink;
use plain_values::NoMemory;

/// Writes these lines, and gives the ending: that of `stop`, that of spent turns, or a failure to write. Where memory was wanting
/// for the lines nothing is written.
pub fn report<K: Sink>(sink: &mut K, lines: Result<String, NoMemory>, stop: bool) -> ServeStatus
    ensures stopped { (bytes : List ℕ) → IfOk lines (λ lines. string_bytes lines ≡ bytes)
        → result ≡ ServeStatus.Stopped → (stop ≡ true) × Appends (K.taken sink.old) (K.taken sink.new) bytes }
    ensures spent { (bytes : List ℕ) → IfOk lines (λ lines. string_bytes lines ≡ bytes)
        → result ≡ ServeStatus.TurnsSpent → (stop ≡ false) × Appends (K.taken sink.old) (K.taken sink.new) bytes }
    ensures no_wire_fault { result ≡ ServeStatus.WireFault → ⊥ }
    ensures cut { (bytes : List ℕ) → IfOk lines (λ lines. string_bytes lines ≡ bytes)
        → result ≡ ServeStatus.WriteFault → (k : ℕ) × Appends (K.taken sink.old) (K.taken sink.new) (take k bytes) }
    ensures write_fault { result ≡ ServeStatus.WriteFault → HasRisen (K.faults sink.old) (K.faults sink.new) }
    ensures silent { result ≡ ServeStatus.NoMemory → sink.new ≡ sink.old }
{
    let Ok(text) = lines else {
        return ServeStatus::NoMemory;
    };
    match sink.put(text.as_bytes()) {
        Ok(()) if stop => ServeStatus::Stopped,
        Ok(()) => ServeStatus::TurnsSpent,
        Err(_) => ServeStatus::WriteFault,
    }
}
