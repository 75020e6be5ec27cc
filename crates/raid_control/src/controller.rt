ghost use Rattle.std.specs.Prelude.{◌≡◌, ℕ, ℤ, List, [], ◌∷◌, ◌++◌, Bool, not, ◌&&◌, OnOk, OnErr, IfOk};
ghost use Rattle.std.specs.Bool.{OnTrue, OnFalse};
ghost use Rattle.raid_base.specs.declared.names.Txn.{Txn};
ghost use Rattle.raid_base.specs.declared.names.Item.{Item};
ghost use Rattle.raid_base.specs.declared.entry.Noted.{Noted};
ghost use Rattle.raid_base.specs.declared.verdict.Kind.{Kind};
ghost use Rattle.raid_base.specs.declared.verdict.Structure.{Structure};
ghost use Rattle.raid_rules.specs.History.{has_ended};
ghost use Rattle.raid_rules.specs.Verdicts.{verdict_of, asked, is_blocked_by};
ghost use Rattle.raid_rules.specs.Views.{is_backward};
ghost use Rattle.raid_rules.specs.Order.{Fits, MayNote};
ghost use Rattle.raid_legal.specs.Answers.{is_lock};
ghost use Rattle.raid_control.specs.Carried.{IsCarry, carried, is_generic};

use crate::carry::Carry;
use raid_base::{Ask, Entry, Kind, NoMemory, Pairs, Structure, Txn, Verdict};
use std::alloc::Global;

/// A concurrency controller (Bhargava and Riedl's sequencer of actions): it judges each action before it is admitted, and is told of
/// each entry once it is placed.
///
/// A controller *stands for* views, lists of noted entries, which it needn't keep; it may stand for several. Each promise is made for
/// every view that it stands for, so a caller may speak of whichever view it knows. Kind and structure say nothing of the view: only
/// [`set_kind`](Controller::set_kind) changes the kind, and nothing changes the structure.
pub trait Controller: Send + Drop {
    // The controller stands for the view.
    ghost stands: { Self → List Noted → Type 0 };

    // The kind of its verdicts.
    ghost kind_of: { Self → Kind };

    // How it keeps its state.
    ghost structure_of: { Self → Structure };

    /// The kind of its verdicts.
    fn kind(&self) -> Kind
        ensures { result ≡ kind_of self.now };

    /// How it keeps its state.
    fn structure(&self) -> Structure
        ensures { result ≡ structure_of self.now };

    /// What its kind says of an action, over a view that the ask fits: the asker hasn't ended there, and the view is in order, also
    /// with the action added as its last entry. Takes no memory, and leaves the views as they were.
    fn judge(&mut self, ask: &Ask) -> Verdict
        ensures kind { kind_of self.new ≡ kind_of self.old }
        ensures structure { structure_of self.new ≡ structure_of self.old }
        ensures answers { (view : List Noted) → stands self.old view → Fits view (asked ask.now) → result ≡ verdict_of (kind_of self.old) view (asked ask.now) }
        ensures keeps { (view : List Noted) → stands self.old view → stands self.new view };

    /// Adds an entry, with its number and its transaction's stamp (0 where it has none), to each view that stays in order with it; an
    /// action has to be one that its kind grants over that view, by a transaction that hasn't ended there. After want of memory it
    /// stands for what it stood for.
    fn note(&mut self, at: u32, stamp: u32, entry: &Entry) -> Result<(), NoMemory>
        ensures kind { kind_of self.new ≡ kind_of self.old }
        ensures structure { structure_of self.new ≡ structure_of self.old }
        ensures ok { OnOk result ((view : List Noted) → stands self.old view → MayNote (kind_of self.old) view (record { at = at; stamp = stamp; entry = entry.now }) → stands self.new (view ++ record { at = at; stamp = stamp; entry = entry.now } ∷ [])) }
        ensures err { OnErr result ((view : List Noted) → stands self.old view → stands self.new view) };

    /// Whether the transaction, not ended in the view, has read there what another has overwritten since. Takes no memory.
    fn backward(&self, txn: Txn) -> bool
        ensures { (view : List Noted) → stands self.now view → result ≡ (not (has_ended view txn) && is_backward view txn) };

    /// Whether a read of `reader` keeps `writer` from these writes: under locking alone, where `reader` is another transaction that
    /// hasn't ended in the view and has read a written item there. Takes no memory.
    fn blocks(&self, reader: Txn, writer: Txn, writes: &Pairs) -> bool
        ensures { (view : List Noted) → stands self.now view → result ≡ (is_lock (kind_of self.now) && is_blocked_by reader view writer writes.now) };

    /// What the next controller starts with: the Begins and Reads of the transactions that haven't ended in the view.
    fn carry(&self, alloc: Global) -> Result<Carry, NoMemory>
        ensures { IfOk result (λ c. (view : List Noted) → stands self.now view → c ≡ carried view) };

    /// Makes a cleared controller stand for a carry. After want of memory it stands for what it stood for.
    fn load(&mut self, carry: &Carry) -> Result<(), NoMemory>
        ensures kind { kind_of self.new ≡ kind_of self.old }
        ensures structure { structure_of self.new ≡ structure_of self.old }
        ensures ok { OnOk result (stands self.old [] → IsCarry carry.now → stands self.new carry.now) }
        ensures err { OnErr result ((view : List Noted) → stands self.old view → stands self.new view) };

    /// Makes the verdicts those of another kind, over the same views. False exactly where the structure is native; then nothing
    /// changes. Takes no memory.
    fn set_kind(&mut self, kind: Kind) -> bool
        ensures answers { result ≡ is_generic (structure_of self.old) }
        ensures structure { structure_of self.new ≡ structure_of self.old }
        ensures set { OnTrue result (kind_of self.new ≡ kind) }
        ensures unset { OnFalse result (kind_of self.new ≡ kind_of self.old) }
        ensures keeps { (view : List Noted) → stands self.old view → stands self.new view };

    /// Forgets all: it stands for the empty view. Takes no memory.
    fn clear(&mut self)
        ensures kind { kind_of self.new ≡ kind_of self.old }
        ensures structure { structure_of self.new ≡ structure_of self.old }
        ensures empty { stands self.new [] };
}

/// Says which transactions keep others from their writes.
pub trait Blocks {
    // It answers by this test on the reader, the writer and what is to be written. It may answer by several.
    ghost says: { Self → (Txn → Txn → List (Item × ℤ) → Bool) → Type 0 };

    /// Whether `reader` keeps `writer` from these writes. Takes no memory.
    fn blocks(&self, reader: Txn, writer: Txn, writes: &Pairs) -> bool
        ensures { (test : Txn → Txn → List (Item × ℤ) → Bool) → says self.now test → result ≡ test reader writer writes.now };
}
