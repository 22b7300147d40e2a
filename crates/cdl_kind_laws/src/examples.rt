// Short histories of blocks, worked out by hand.
ghost use Rattle.cdl_kind_laws.specs.Examples.{Accumulates, Catches, Changes, Counts, CountsNoFurther, DelaysByOneSample, FallingEdges, GivesTheOneBefore, GreaterBegins, GreaterHolds, GreaterThresholdHolds, GreatestPick, HoldsBoth, HysteresisBegins, HysteresisHolds, IntegersChange, Latches, LessHolds, LessThresholdHolds, MeansOfTwo, NoRisingEdgeAtFirst, Pulses, RisingEdges, RoundsHalvesAway, SamplesAtOnce, TimesRuns, Toggles, TrueDelayBegins, TrueDelayBeginsLate, TrueDelayFires};

/// Worked examples: edges, changes, a Pre, a latch and a toggle.
pub fn edges_and_memories()
    ensures rising_edges { RisingEdges }
    ensures no_rising_edge_at_first { NoRisingEdgeAtFirst }
    ensures falling_edges { FallingEdges }
    ensures changes { Changes }
    ensures gives_the_one_before { GivesTheOneBefore }
    ensures integers_change { IntegersChange }
    ensures latches { Latches }
    ensures toggles { Toggles }
{}

/// Worked examples: timers, delays, holds and pulses.
pub fn timers_and_holds()
    ensures true_delay_fires { TrueDelayFires }
    ensures true_delay_begins { TrueDelayBegins }
    ensures true_delay_begins_late { TrueDelayBeginsLate }
    ensures holds_both { HoldsBoth }
    ensures accumulates { Accumulates }
    ensures times_runs { TimesRuns }
    ensures pulses { Pulses }
{}

/// Worked examples: samplers, a unit delay and what is picked by a trigger.
#[tactic(auto, unfolding(cdl_decimal::specs::Near::near))]
pub fn samples()
    ensures delays_by_one_sample { DelaysByOneSample }
    ensures samples_at_once { SamplesAtOnce }
    ensures means_of_two { MeansOfTwo }
    ensures catches { Catches }
    ensures greatest_pick { GreatestPick }
{}

/// Worked examples: a counter, and the rounding of halves.
pub fn counts_and_rounding()
    ensures counts { Counts }
    ensures counts_no_further { CountsNoFurther }
    ensures rounds_halves_away { RoundsHalvesAway }
{}

/// Worked examples: the comparisons with hysteresis.
pub fn comparisons()
    ensures greater_holds { GreaterHolds }
    ensures greater_begins { GreaterBegins }
    ensures less_holds { LessHolds }
    ensures greater_threshold_holds { GreaterThresholdHolds }
    ensures less_threshold_holds { LessThresholdHolds }
    ensures hysteresis_holds { HysteresisHolds }
    ensures hysteresis_begins { HysteresisBegins }
{}
