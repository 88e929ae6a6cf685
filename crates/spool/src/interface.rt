ghost use Rattle.std.specs.Prelude.{◌≡◌, ℕ, ◌<◌, ◌≤◌, false, List, [], ◌++◌, length, is_some, is_ok, Some, None, Option};
ghost use Rattle.spool.specs.Entries.{Entry};
ghost use Rattle.refusals.specs.Refusals.{told};
ghost use Rattle.spool.specs.Rules.{asks_room, copied, copies, extended, opened, opens, part_of, remains, removes, staged, stages, tells};
ghost use Rattle.refusals.specs.declared.refusal.RoomFault.{RoomFault};
ghost use Rattle.std.specs.List.{slice_get};

use crate::entry::{Part, Summary};
use refusals::refusal::Refusal;

// A store of entries, each a mailbox and a payload. New entries are staged in a lot, which is committed or withdrawn whole.
pub trait Spool {
    // the entries held, in filing order
    ghost held: { Self → List Entry };

    // the lot: none, or the entries staged so far
    ghost lot: { Self → Option (List Entry) };

    // for a mailbox and a length, room (none) or why there is no room
    ghost room: { Self → ℕ → ℕ → Option RoomFault };

    // the length up to which an empty spool has room for every mailbox
    ghost floor: { Self → ℕ };

    // How many entries a part has.
    fn count(&self, part: Part) -> usize
        ensures { result ≡ length (part_of part (held self.now) (lot self.now)) };

    // The mailbox and the length of an entry of a part.
    fn entry(&self, part: Part, at: usize) -> Result<Summary, Refusal>
        ensures { told result ≡ tells (part_of part (held self.now) (lot self.now)) at };

    // Whether a lot is open.
    fn lot_is_open(&self) -> bool
        ensures { result ≡ is_some (lot self.now) };

    // Whether there is room for a payload of some length.
    fn room(&self, mailbox: usize, size: usize) -> Result<(), Refusal>
        ensures { told result ≡ asks_room mailbox (room self.now mailbox size) };

    // The length up to which it has room for every mailbox when it is empty.
    fn floor(&self) -> usize
        ensures { result ≡ floor self.now };

    // Copies the payload of a held entry to the front of a buffer, and answers its length.
    fn copy(&self, at: usize, buffer: &mut [u8]) -> Result<usize, Refusal>
        ensures answer { told result ≡ copies (held self.now) at (length buffer.old) }
        ensures buffer { buffer.new ≡ copied (held self.now) at buffer.old };

    // Starts an empty lot.
    fn open_lot(&mut self) -> Result<(), Refusal>
        ensures refused { is_ok result ≡ false → self.new ≡ self.old }
        ensures answer { told result ≡ opens (lot self.old) }
        ensures held { held self.new ≡ held self.old }
        ensures lot { lot self.new ≡ opened (lot self.old) }
        ensures floor { floor self.new ≡ floor self.old };

    // Adds an entry to the lot.
    fn stage(&mut self, mailbox: usize, payload: &[u8]) -> Result<(), Refusal>
        ensures refused { is_ok result ≡ false → self.new ≡ self.old }
        ensures answer { told result ≡ stages mailbox (lot self.old) (room self.old mailbox (length payload.now)) }
        ensures held { held self.new ≡ held self.old }
        ensures lot { lot self.new ≡ extended (lot self.old) (room self.old mailbox (length payload.now)) (record { mailbox = mailbox; payload = payload.now }) }
        ensures floor { floor self.new ≡ floor self.old };

    // Moves what is staged behind what is held, and ends the lot. Answers how many entries were staged.
    fn commit(&mut self) -> usize
        ensures idle { lot self.old ≡ None → self.new ≡ self.old }
        ensures answer { result ≡ length (staged (lot self.old)) }
        ensures held { held self.new ≡ held self.old ++ staged (lot self.old) }
        ensures lot { lot self.new ≡ None }
        ensures floor { floor self.new ≡ floor self.old };

    // Ends the lot without what is staged. Answers how many entries that were.
    fn withdraw(&mut self) -> usize
        ensures idle { lot self.old ≡ None → self.new ≡ self.old }
        ensures answer { result ≡ length (staged (lot self.old)) }
        ensures held { held self.new ≡ held self.old }
        ensures lot { lot self.new ≡ None }
        ensures floor { floor self.new ≡ floor self.old };

    // Takes a held entry out, the others in order; afterwards there is room for its mailbox and length.
    fn remove(&mut self, at: usize) -> Result<(), Refusal>
        ensures refused { is_ok result ≡ false → self.new ≡ self.old }
        ensures answer { told result ≡ removes (lot self.old) (held self.old) at }
        ensures held { held self.new ≡ remains (lot self.old) (held self.old) at }
        ensures lot { lot self.new ≡ lot self.old }
        ensures floor { floor self.new ≡ floor self.old }
        ensures room { lot self.old ≡ None → (e : Entry) → slice_get (held self.old) at ≡ Some e → room self.new e.mailbox (length e.payload) ≡ None };

    ghost high_floor: { (s : Self) → 512 ≤ floor s };

    ghost empty_has_room: { (s : Self) → held s ≡ [] → staged (lot s) ≡ [] → (m n : ℕ) → m < 64 → n ≤ floor s → room s m n ≡ None };
}
