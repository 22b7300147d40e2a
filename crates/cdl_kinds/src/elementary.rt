// What a block of one kind does at a tick.
ghost use Rattle.std.specs.Prelude.{◌≡◌, ℕ, ◌+◌, ◌<◌, ℤ, List, [], ◌∷◌, length, Option, Some, None, MatchResult, OnOk, OnErr, negsuc, ◌<ℤ◌, IsTrue, ◌↔◌};
ghost use Rattle.cdl_values.specs.History.{History, Tick, Signature, AreReady, AreValues, IsTime, IsLater, IsHistory, SameDirect, last_time, tick};

use crate::steps::Steps;
use cdl_values::NoValue;
use std::sync::ledger::Ledger;

/// A block of one kind, with its parameters. It keeps what it needs of the ticks before in state words, which the caller holds.
/// A time is in milliseconds, from 0 to 10^13. A value is one word: 0 or 1 for a Boolean, the number for an Integer, the count of millionths for a Real.
/// No method takes memory.
pub trait Elementary {
    /// Its inputs.
    ghost inputs: { Self → Signature };

    /// How many words its state has.
    ghost width: { Self → ℕ };

    /// Its outputs.
    ghost results: { Self → Signature };

    /// What it gives at a time, after these ticks and with these inputs, or none.
    ghost meaning: { Self → History → ℤ → List ℤ → Option (List ℤ) };

    /// Where it may have no value, at a time and with these inputs, whatever its state.
    ghost may_lack: { Self → ℤ → List ℤ → Type 0 };

    /// The state stands for the ticks before.
    ghost stands: { Self → List ℤ → History → Type 0 };

    /// The state may stand for some ticks, the last of them at this time or before, or for none.
    ghost is_sound: { Self → List ℤ → ℤ → Type 0 };

    /// How many words its state has.
    fn words(&self) -> usize
        ensures { result ≡ width self.now };

    /// The state of before the first tick.
    fn reset(&self, state: &mut [i64])
        requires { length state.old ≡ width self.now }
        ensures stands { stands self.now state.new [] }
        ensures sound { is_sound self.now state.new (negsuc 0) };

    /// Whether the state may stand for some ticks, the last of them at this time or before; -1 stands for no tick.
    /// A state that stands for a history is sound for the time of its last tick.
    fn sound(&self, state: &[i64], last: i64) -> bool
        requires { length state.now ≡ width self.now }
        ensures answer { IsTrue result ↔ is_sound self.now state.now last }
        ensures standing { (h : History) → IsHistory (inputs self.now) (meaning self.now) h → stands self.now state.now h → last ≡ last_time h → is_sound self.now state.now last };

    /// Writes the outputs at this tick, and counts one step. Inputs that are not direct are not read.
    /// NoValue: the meaning has no value; the outputs are then unspecified.
    fn emit<L: Ledger>(
        &self,
        state: &[i64],
        now: i64,
        ins: &[i64],
        outs: &mut [i64],
        steps: &mut Steps<L>,
    ) -> Result<(), NoValue>
        requires state { length state.now ≡ width self.now }
        requires outs { length outs.old ≡ (results self.now).count }
        requires time { IsTime now }
        requires ready { AreReady (inputs self.now) ins.now }
        requires sound { (last : ℤ) × (last <ℤ now) × is_sound self.now state.now last }
        ensures step { steps.new ≡ steps.old + 1 }
        ensures typed { OnOk result (AreValues (results self.now) outs.new) }
        ensures gives { (h : History) → IsHistory (inputs self.now) (meaning self.now) h → IsLater now h → stands self.now state.now h → MatchResult result (λ _. meaning self.now h now ins.now ≡ Some outs.new) (λ _. meaning self.now h now ins.now ≡ None) }
        ensures lacks { OnErr result (may_lack self.now now ins.now) };

    /// Takes this tick into the state.
    fn absorb(&self, state: &mut [i64], now: i64, ins: &[i64])
        requires state { length state.old ≡ width self.now }
        requires time { IsTime now }
        requires ready { AreValues (inputs self.now) ins.now }
        requires sound { (last : ℤ) × (last <ℤ now) × is_sound self.now state.old last }
        ensures sound { is_sound self.now state.new now }
        ensures stands { (h : History) → stands self.now state.old h → IsHistory (inputs self.now) (meaning self.now) (tick now ins.now ∷ h) → stands self.now state.new (tick now ins.now ∷ h) };

    /// Without state words it stands for all ticks alike, and is sound at all times: it has nothing to absorb.
    ghost idle: { (b : Self) → width b ≡ 0 → ((state : List ℤ) (h g : History) → stands b state h → stands b state g) × ((state : List ℤ) (last now : ℤ) → is_sound b state last → is_sound b state now) };

    /// The inputs that are not direct have no part in what it gives.
    ghost direct_only: { (b : Self) (h : History) (now : ℤ) (x y : List ℤ) → SameDirect (inputs b) x y → meaning b h now x ≡ meaning b h now y };
}
