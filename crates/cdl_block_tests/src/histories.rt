// Each kind with a memory on a history. The expected words were worked out from the whole history at each tick, apart from
// the program.
ghost use Rattle.std.specs.Prelude.{◌≡◌, ◌<◌, length};
ghost use Rattle.cdl_kinds.specs.Conditions.{Keeps};
ghost use Rattle.cdl_kinds.specs.Ports.{inputs, outputs};
ghost use Rattle.cdl_values.specs.History.{AreValues};

use crate::blocks::are_ready;
use crate::values::{block_of, numbers, params_of};
use cdl_blocks::AnyBlock;
use cdl_kinds::{Elementary, Kind, Params, Steps, find};
use std::alloc::Global;
use std::marker::Brand;
use std::sync::ledger::{Blank, Ledger};
use std::test::Fail;

// A kind, its parameters, and its ticks: time and inputs, then outputs, or `none` where there is no value.
const CASES: &str = "Logical.Edge;0;0 1=1;1 1=0;2 0=0;3 1=1;4 0=0;5 0=0;6 1=1;7 1=0\n\
    Logical.Edge;1;0 1=0;1 0=0;2 1=1;3 1=0;4 0=0;5 1=1;6 0=0;7 0=0\n\
    Logical.FallingEdge;0;0 0=0;1 1=0;2 0=1;3 0=0;4 1=0;5 1=0;6 0=1;7 1=0\n\
    Logical.FallingEdge;1;0 0=1;1 0=0;2 1=0;3 0=1;4 1=0;5 1=0;6 1=0;7 0=1\n\
    Logical.Change;0;0 1=1;1 1=0;2 0=1;3 0=0;4 1=1;5 0=1;6 1=1;7 1=0\n\
    Logical.Change;1;0 1=0;1 0=1;2 0=0;3 1=1;4 1=0;5 1=0;6 0=1;7 0=0\n\
    Logical.Latch;;0 1 0=1;1 0 1=0;2 1 1=0;3 0 0=0;4 1 0=1;5 1 0=1;6 1 1=0;7 0 0=0\n\
    Logical.Latch;;0 1 0=1;1 0 1=0;2 1 1=0\n\
    Logical.Latch;;0 0 0=0;1 1 1=0;2 1 0=0;3 1 0=0;4 1 0=0;5 0 0=0;6 1 0=1;7 0 1=0\n\
    Logical.Toggle;;0 1 0=1;1 1 0=1;2 0 0=1;3 1 0=0;4 0 0=0;5 1 0=1;6 0 1=0;7 1 1=0\n\
    Logical.Toggle;;0 0 0=0;1 1 0=1;2 0 0=1;3 1 0=0;4 1 1=0;5 0 0=0;6 1 0=1;7 0 0=1\n\
    Logical.Pre;0;0 1=0;1 0=1;2 0=0;3 1=0;4 1=1;5 0=1;6 1=0;7 0=1\n\
    Logical.Pre;1;0 0=1;1 0=0;2 1=0;3 0=1;4 1=0;5 1=1;6 0=1;7 1=0\n\
    Logical.Timer;1000000;0 1=0 0;1000 1=1000000 1;1500 0=0 0;2000 1=0 0;2500 1=500000 0;2999 1=999000 0;3000 1=1000000 1;10000000000000 1=9999999998000000 1\n\
    Logical.Timer;0;0 0=0 0;1 1=0 1;2 0=0 0;3 1=0 1;4 1=1000 1;5 1=2000 1;6 0=0 0;7 0=0 0\n\
    Logical.Timer;2001;5 1=0 0;6 1=1000 0;7 1=2000 0;8 1=3000 1;9 0=0 0;10 1=0 0;11 1=1000 0;12 1=2000 0\n\
    Logical.Timer;2000;0 0=0 0;1 1=0 0;2 1=1000 0;3 1=2000 1;4 0=0 0;5 1=0 0;6 1=1000 0;7 1=2000 1\n\
    Logical.Timer;1999;0 0=0 0;1 1=0 0;2 1=1000 0;3 1=2000 1;4 0=0 0;5 1=0 0;6 1=1000 0;7 1=2000 1\n\
    Logical.TimerAccumulating;2000000;0 1 0=0 0;1000 1 0=1000000 0;2500 0 0=2500000 1;3000 1 0=2500000 1;4000 1 1=0 0;5000 1 1=1000000 0;6999 1 1=2999000 1;7000 1 1=3000000 1\n\
    Logical.TimerAccumulating;0;0 1 1=0 1;1 1 1=1000 1;2 0 0=2000 1;3 1 1=0 1;4 0 0=1000 1;5 1 0=1000 1;6 1 1=0 1;10000000000000 1 1=9999999999994000 1\n\
    Logical.TimerAccumulating;10000000000000000;0 1 1=0 0;1 1 1=1000 0;10000000000000 1 1=10000000000000000 1\n\
    Logical.TimerAccumulating;2000;0 1 0=0 0;1 1 0=1000 0;2 1 0=2000 1;3 0 0=3000 1;4 1 1=0 0;5 1 1=1000 0;6 1 1=2000 1;7 1 1=3000 1\n\
    Logical.TimerAccumulating;1999;0 1 0=0 0;1 1 0=1000 0;2 1 0=2000 1;3 0 0=3000 1;4 1 1=0 0;5 1 1=1000 0;6 1 1=2000 1;7 1 1=3000 1\n\
    Logical.TrueDelay;5000 0;0 0=0;1 1=0;5 1=0;6 1=1;7 0=0;8 1=0;13 1=1\n\
    Logical.TrueDelay;5000 0;0 1=1;5 1=1;6 0=0;7 1=0;8 1=0;12 1=1;13 1=1;14 0=0\n\
    Logical.TrueDelay;5000 1;0 1=0;4 1=0;5 1=1;6 0=0;7 1=0;11 1=0;12 1=1;13 1=1\n\
    Logical.TrueDelay;5001 0;0 0=0;1 1=0;5 1=0;6 1=0;7 0=0;8 1=0;13 1=0;14 1=1\n\
    Logical.TrueDelay;0 1;0 1=1;1 0=0;2 1=1;3 1=1;4 0=0;5 0=0;6 1=1;7 0=0\n\
    Logical.TrueDelay;10000000000000000 1;0 1=0;9999999999999 1=0;10000000000000 1=1\n\
    Logical.TrueDelay;4999 0;0 0=0;1 1=0;4 1=0;5 1=0;6 1=1;7 0=0;11 1=0;12 1=0;13 1=0\n\
    Logical.TrueDelay;4999 1;0 1=0;1 1=0;4 1=0;5 1=1;6 0=0;7 1=0;11 1=0;12 1=1;16 0=0\n\
    Logical.TrueFalseHold;2000000 1000000;0 1=1;1000 0=1;2000 0=0;2500 1=0;3000 1=1;4000 1=1;5000 0=0;5001 1=0\n\
    Logical.TrueFalseHold;0 0;0 0=0;1 1=1;2 0=0;3 1=1;4 1=1;5 0=0;6 1=1;7 0=0\n\
    Logical.TrueFalseHold;2000 3001;0 1=1;1 0=1;2 0=0;3 1=0;4 1=0;5 1=0;6 1=1;7 0=1\n\
    Logical.TrueFalseHold;1999 3000;0 1=1;1 0=1;2 0=0;3 1=0;4 1=0;5 1=1;6 0=1;7 0=0;8 0=0\n\
    Logical.TrueFalseHold;3000 2999;0 1=1;1 0=1;2 0=1;3 0=0;4 1=0;5 1=0;6 1=1;7 0=1;9 0=0\n\
    Logical.TrueFalseHold;10000000000000000 10000000000000000;0 1=1;1 0=1;2 1=1;3 0=1;4 0=1;5 0=1;9999999999999 0=1;10000000000000 0=0\n\
    Logical.Sources.Pulse;500000 2000000 1500000;0=1;499=1;500=0;1499=0;1500=1;2499=1;2500=0;10000000000000=1\n\
    Logical.Sources.Pulse;1 1000000 -1;0=0;1=0;999=0;1000=0;1001=0;1999=0;2000=0;3000=0\n\
    Logical.Sources.Pulse;999999 3000 10000000000000000;0=1;1=1;2=1;3=1;4=1;5=1;6=1;7=1\n\
    Integers.Change;5;0 5=0 0 0;1 7=1 1 0;2 2=1 0 1;3 2=0 0 0;4 3=1 1 0;5 3=0 0 0;6 -4=1 0 1;7 2147483647=1 1 0\n\
    Integers.Change;-2147483647;0 2147483647=1 1 0;1 -2147483647=1 0 1;2 -2147483647=0 0 0;3 0=1 1 0;4 1=1 1 0;5 0=1 0 1;6 0=0 0 0;7 -1=1 0 1\n\
    Integers.OnCounter;0;0 1 0=0;1 0 0=0;2 1 0=1;3 1 0=1\n\
    Integers.OnCounter;7;0 1 1=7;1 0 1=7;2 1 0=8;3 1 0=8;4 0 0=8;5 1 1=7;6 0 1=7;7 1 1=8;8 0 0=8\n\
    Integers.OnCounter;2147483645;0 0 0=2147483645;1 1 0=2147483646;2 0 0=2147483646;3 1 0=2147483647;4 0 0=2147483647;5 0 1=2147483645;6 0 0=2147483645;7 0 0=2147483645\n\
    Integers.OnCounter;2147483647;0 0 0=2147483647;1 1 1=2147483647;2 0 0=2147483647;3 1 1=2147483647;4 0 0=2147483647;5 0 1=2147483647;6 0 0=2147483647;7 1 0=none\n\
    Integers.OnCounter;-2147483647;0 0 0=-2147483647;1 1 0=-2147483646;2 0 0=-2147483646;3 1 0=-2147483645;4 0 0=-2147483645;5 1 1=-2147483647;6 0 0=-2147483647;7 1 0=-2147483646\n\
    Reals.Greater;2 0;0 5 5=0;1 6 5=1;2 4 5=1;3 3 5=0;4 4 5=0;5 6 5=1;6 5 5=1;7 4 6=0\n\
    Reals.Greater;0 1;0 5 5=0;1 6 5=1;2 5 5=0;3 5 6=0;4 10000000000000000 -10000000000000000=1;5 -10000000000000000 10000000000000000=0;6 10000000000000000 10000000000000000=0;7 0 0=0\n\
    Reals.Greater;10000000000000000 1;0 -10000000000000000 10000000000000000=0;1 -10000000000000000 0=0;2 10000000000000000 10000000000000000=0;3 -10000000000000000 0=0;4 0 10000000000000000=0;5 -10000000000000000 0=0;6 1 10000000000000000=0;7 0 0=0\n\
    Reals.Less;2 0;0 5 5=0;1 4 5=1;2 6 5=1;3 7 5=0;4 6 5=0;5 4 5=1;6 5 5=1;7 7 5=0\n\
    Reals.Less;0 1;0 5 5=0;1 4 5=1;2 5 5=0;3 5 4=0;4 -10000000000000000 10000000000000000=1;5 10000000000000000 -10000000000000000=0;6 10000000000000000 10000000000000000=0;7 0 0=0\n\
    Reals.GreaterThreshold;5 2 0;0 5=0;1 6=1;2 4=1;3 3=0;4 4=0;5 6=1;6 5=1;7 3=0\n\
    Reals.GreaterThreshold;10000000000000000 10000000000000000 1;0 1=1;1 0=0;2 10000000000000000=0;3 10000000000000000=0;4 -10000000000000000=0;5 1=0;6 10000000000000000=0;7 0=0\n\
    Reals.GreaterThreshold;5 0 0;0 5=0;1 6=1;2 5=0;3 6=1;4 4=0;5 5=0;6 10000000000000000=1;7 -10000000000000000=0\n\
    Reals.LessThreshold;5 2 0;0 5=0;1 4=1;2 6=1;3 7=0;4 6=0;5 4=1;6 5=1;7 7=0\n\
    Reals.LessThreshold;-10000000000000000 10000000000000000 1;0 -1=1;1 0=0;2 -10000000000000000=0;3 10000000000000000=0;4 -10000000000000000=0;5 -1=0;6 0=0;7 1=0\n\
    Reals.LessThreshold;5 0 0;0 5=0;1 4=1;2 5=0;3 4=1;4 6=0;5 5=0;6 -10000000000000000=1;7 10000000000000000=0\n\
    Reals.Hysteresis;2 5 0;0 5=0;1 6=1;2 2=1;3 1=0;4 5=0;5 6=1;6 5=1;7 2=1\n\
    Reals.Hysteresis;-10000000000000000 10000000000000000 1;0 -10000000000000000=1;1 0=1;2 10000000000000000=1;3 -10000000000000000=1;4 -10000000000000000=1;5 10000000000000000=1;6 0=1;7 1=1\n\
    Discrete.Sampler;2000000;500 1=1;1000 2=1;2500 3=3;3000 4=3;4500 5=5;5999 6=5;6000 7=7;10000000000000 8=8\n\
    Discrete.Sampler;1000;0 10000000000000000=10000000000000000;1 -10000000000000000=-10000000000000000;2 3=3;3 4=4;4 5=5;5 6=6;6 7=7;7 8=8\n\
    Discrete.Sampler;10000000000000000;0 1=1;1 2=1;2 3=1;3 4=1;4 5=1;5 6=1;6 7=1;10000000000000 8=8\n\
    Discrete.ZeroOrderHold;2500;0 1=1;1 2=1;2 3=1;3 4=4;4 5=4;5 6=6;6 7=6;7 8=6;8 9=9\n\
    Discrete.ZeroOrderHold;10000000000000000;0 1=1;1 2=1;2 3=1;3 4=1;4 5=1;5 6=1;9999999999999 7=1;10000000000000 8=8\n\
    Discrete.UnitDelay;2000000 7000000;0 1000000=7000000;1000 2000000=7000000;2000 3000000=1000000;3000 4000000=1000000;4500 5000000=3000000\n\
    Discrete.UnitDelay;1500 -10000000000000000;0 1=-10000000000000000;1 2=-10000000000000000;2 3=1;3 4=3;4 5=3;5 6=4;6 7=6;7 8=6\n\
    Discrete.UnitDelay;10000000000000000 10000000000000000;0 1=10000000000000000;1 2=10000000000000000;2 3=10000000000000000;3 4=10000000000000000;4 5=10000000000000000;5 6=10000000000000000;6 7=10000000000000000;10000000000000 8=1\n\
    Discrete.TriggeredSampler;9;0 5 1=9;1 7 0=9;2 6 1=6;3 8 1=6;4 1 0=6;5 2 0=6;6 3 1=3;7 4 0=3\n\
    Discrete.TriggeredSampler;-10000000000000000;0 1 0=-10000000000000000;1 10000000000000000 1=10000000000000000;2 6 1=10000000000000000;3 -10000000000000000 0=10000000000000000;4 1 1=1;5 2 0=1;6 3 0=1;7 4 1=4\n\
    Discrete.TriggeredMax;;0 5 1=5;1 7 0=5;2 6 1=6;3 8 1=6;4 9 0=6;5 2 1=6;6 10 0=6;7 4 1=6\n\
    Discrete.TriggeredMax;;0 -5 0=-5;1 -7 1=-5;2 -6 0=-5;3 -3 1=-3;4 -10000000000000000 0=-3;5 -2 1=-2;6 -1 0=-2;7 10000000000000000 0=-2\n\
    Discrete.TriggeredMovingMean;2;0 4 1=4;1 7 0=4;2 6 1=5;3 9 1=5;4 1 0=5;5 1 1=4;6 5 0=4;7 2 1=2\n\
    Discrete.TriggeredMovingMean;1;0 4 0=4;1 7 1=7;2 6 0=7;3 9 1=9;4 1 1=9;5 1 0=9;6 5 1=5;7 2 0=5\n\
    Discrete.TriggeredMovingMean;3;0 10000000000000000 0=10000000000000000;1 10000000000000000 1=10000000000000000;2 10000000000000000 0=10000000000000000;3 0 1=6666666666666667;4 -10000000000000000 0=6666666666666667;5 1 0=6666666666666667;6 -10000000000000000 1=0;7 0 0=0;8 -10000000000000000 1=-6666666666666667;9 2 0=-6666666666666667\n\
    Discrete.TriggeredMovingMean;5;0 1 1=1;1 2 0=1;2 3 1=2;3 4 0=2;4 5 1=3;5 6 0=3;6 7 1=4;7 8 0=4\n\
    Discrete.TriggeredMovingMean;1024;0 1 1=1;1 2 0=1;2 4 1=2;3 9 0=2;4 8 1=4;5 9 0=4;6 17 1=8;7 9 0=8;10000000000000 1 1=6";

// The blocks of a zone that asks for heat while it is occupied and too cold: a day in minutes, at the ticks where a word
// changes and before them, in the form of the cases above.
const ZONE: &str =
    "Reals.Sources.Constant;293150000;0=293150000;17940000=293150000;18000000=293150000;28740000=293150000;28800000=293150000;29340000=293150000;29400000=293150000;53940000=293150000;54000000=293150000;64740000=293150000;64800000=293150000;86340000=293150000\n\
    Reals.Subtract;;0 293150000 294150000=-1000000;17940000 293150000 294150000=-1000000;18000000 293150000 292150000=1000000;28740000 293150000 292150000=1000000;28800000 293150000 292150000=1000000;29340000 293150000 292150000=1000000;29400000 293150000 292150000=1000000;53940000 293150000 292150000=1000000;54000000 293150000 294150000=-1000000;64740000 293150000 294150000=-1000000;64800000 293150000 294150000=-1000000;86340000 293150000 294150000=-1000000\n\
    Reals.Hysteresis;0 500000 0;0 -1000000=0;17940000 -1000000=0;18000000 1000000=1;28740000 1000000=1;28800000 1000000=1;29340000 1000000=1;29400000 1000000=1;53940000 1000000=1;54000000 -1000000=0;64740000 -1000000=0;64800000 -1000000=0;86340000 -1000000=0\n\
    Conversions.BooleanToInteger;1 0;0 0=0;17940000 0=0;18000000 1=1;28740000 1=1;28800000 1=1;29340000 1=1;29400000 1=1;53940000 1=1;54000000 0=0;64740000 0=0;64800000 0=0;86340000 0=0\n\
    Integers.MultiSum;9 1;0 0 0 0 0 0 0 0 0 0=0;17940000 0 0 0 0 0 0 0 0 0=0;18000000 1 0 0 0 0 0 0 0 0=1;28740000 1 0 0 0 0 0 0 0 0=1;28800000 1 0 0 0 0 0 0 0 0=1;29340000 1 0 0 0 0 0 0 0 0=1;29400000 1 0 0 0 0 0 0 0 0=1;53940000 1 0 0 0 0 0 0 0 0=1;54000000 0 0 0 0 0 0 0 0 0=0;64740000 0 0 0 0 0 0 0 0 0=0;64800000 0 0 0 0 0 0 0 0 0=0;86340000 0 0 0 0 0 0 0 0 0=0\n\
    Integers.GreaterThreshold;0;0 0=0;17940000 0=0;18000000 1=1;28740000 1=1;28800000 1=1;29340000 1=1;29400000 1=1;53940000 1=1;54000000 0=0;64740000 0=0;64800000 0=0;86340000 0=0\n\
    Logical.And;;0 0 0=0;17940000 0 0=0;18000000 1 0=0;28740000 1 0=0;28800000 1 1=1;29340000 1 1=1;29400000 1 1=1;53940000 1 1=1;54000000 0 1=0;64740000 0 1=0;64800000 0 0=0;86340000 0 0=0\n\
    Logical.TrueDelay;600000000 0;0 0=0;17940000 0=0;18000000 0=0;28740000 0=0;28800000 1=0;29340000 1=0;29400000 1=1;53940000 1=1;54000000 0=0;64740000 0=0;64800000 0=0;86340000 0=0";

// Takes a tick, and tells whether the block gives a value. None: the state isn't sound for the last time, or the time isn't later.
fn one_tick<L: Ledger>(
    blank: Blank,
    block: &AnyBlock,
    state: &mut [i64],
    last: i64,
    now: i64,
    ins: &[i64],
    outs: &mut [i64],
) -> Option<bool>
    requires name { blank.name ≡ L.name }
    requires parts { blank.parts ≡ L.parts }
    requires some { 0 < blank.parts }
    requires state { length state.old ≡ ⟦<AnyBlock as Elementary>⟧.width block.now }
    requires outs { length outs.old ≡ (⟦<AnyBlock as Elementary>⟧.results block.now).count }
    requires values { AreValues (⟦<AnyBlock as Elementary>⟧.inputs block.now) ins.now }
{
    if now < 0 || now <= last || 10_000_000_000_000 < now || !block.sound(state, last) {
        return None;
    }
    let mut steps = Steps::<L>::new(blank);
    let given = block.emit(state, now, ins, outs, &mut steps);
    block.absorb(state, now, ins);
    Some(given.is_ok())
}

// Whether a block of the kind gives these words at a tick, or none where there are none.
fn gives(
    kind: Kind,
    params: &Params,
    block: &AnyBlock,
    state: &mut [i64],
    last: i64,
    now: i64,
    ins: &[i64],
    want: &[i64],
) -> bool
    requires keeps { Keeps kind params.now }
    requires inputs { ⟦<AnyBlock as Elementary>⟧.inputs block.now ≡ inputs kind params.now }
    requires results { ⟦<AnyBlock as Elementary>⟧.results block.now ≡ outputs kind params.now }
    requires state { length state.old ≡ ⟦<AnyBlock as Elementary>⟧.width block.now }
{
    let n = if want.is_empty() { 1 } else { want.len() };
    if n > 8 || !are_ready(kind, params, ins, n) {
        return false;
    }
    let mut words = [0; 8];
    let outs = &mut words[..n];
    match one_tick::<Brand>(Blank::new(1), block, state, last, now, ins, outs) {
        Some(true) => *outs == *want,
        Some(false) => want.is_empty(),
        None => false,
    }
}

// Whether the block follows the ticks of the row.
fn follows(
    alloc: Global,
    kind: Kind,
    params: &Params,
    block: &AnyBlock,
    state: &mut [i64],
    row: &str,
) -> Result<bool, Fail>
    requires keeps { Keeps kind params.now }
    requires inputs { ⟦<AnyBlock as Elementary>⟧.inputs block.now ≡ inputs kind params.now }
    requires results { ⟦<AnyBlock as Elementary>⟧.results block.now ≡ outputs kind params.now }
    requires state { length state.old ≡ ⟦<AnyBlock as Elementary>⟧.width block.now }
{
    let mut last = -1;
    for cell in row.split(';').skip(2) {
        let (tick, outs) = cell.split_once('=').ok_or("no outputs")?;
        let tick = numbers(alloc, tick)?;
        let want = numbers(alloc, outs)?;
        let (now, ins) = tick.as_slice().split_first().ok_or("no time")?;
        if !gives(kind, params, block, state, last, *now, ins, want.as_slice()) {
            return Ok(false);
        }
        last = *now;
    }
    Ok(true)
}

// The most state words of a case: those of a mean of 1,024 samples.
const MOST_WORDS: usize = 1027;

// Whether a block of the row's kind and parameters follows its ticks.
fn keeps_row(alloc: Global, row: &str) -> Result<bool, Fail> {
    let mut cells = row.split(';');
    let kind = find(cells.next().ok_or("no kind")?).ok_or("no such kind")?;
    let given = numbers(alloc, cells.next().ok_or("no parameters")?)?;
    let params = params_of(alloc, kind, given.as_slice())?;
    let block = block_of(alloc, kind, &params)?;
    let mut words = [0; MOST_WORDS];
    let width = block.words();
    if width > words.len() {
        return Err("too many words".into());
    }
    let state = &mut words[..width];
    block.reset(state);
    follows(alloc, kind, &params, &block, state, row)
}

#[test]
fn each_kind_follows_its_history(rt: HostRuntime) -> Result<(), Fail> {
    for row in CASES.lines() {
        assert!(rt; keeps_row(rt.alloc(), row)?, "{row}");
    }
    Ok(())
}

#[test]
fn the_blocks_of_a_zone_follow_its_day(rt: HostRuntime) -> Result<(), Fail> {
    for row in ZONE.lines() {
        assert!(rt; keeps_row(rt.alloc(), row)?, "{row}");
    }
    Ok(())
}
