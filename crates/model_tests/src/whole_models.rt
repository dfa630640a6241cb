//! Reports on whole models, in which links of all kinds stand together. What holds is worked out by hand.

use crate::runs::{LINES, all_answer};
use std::test::Fail;

const MODELS: &str = "
== the pump of a mine, from its goals to its agents
kaos 1;
var water: 0..3;
var methane: bool;
var pump: {stopped, running};
var alarm: bool;
domain Init: water = 0;
domain Slow: always ((water = 0 implies next water <= 1) and (water <= 1 implies next water <= 2));
domain Drain: pump = running entails next water <= 2;
goal Protected: always (water <= 2 and (methane implies next pump = stopped));
goal Dry: always water <= 2;
goal Safe: methane entails next pump = stopped;
goal PumpOn: water >= 1 entails next pump = running;
goal Warn: methane entails alarm;
goal AlarmOff: alarm entails next pump = stopped;
refine Protected by Dry, Safe;
refine Dry by PumpOn;
refine Safe by Warn, AlarmOff;
agent Controller monitors water, alarm controls pump;
agent Sensor monitors methane controls alarm;
assign PumpOn to Controller;
assign AlarmOff to Controller;
expect Warn of Sensor;
operation Start by Controller dompre pump = stopped dompost pump = running;
operation Stop by Controller dompre pump = running dompost pump = stopped;
require StartOnWater on Start trig water >= 1;
require StopDry on Stop pre water = 0;
require StopOnAlarm on Stop trig alarm;
require StartQuiet on Start pre not alarm;
operationalise PumpOn by StartOnWater, StopDry;
operationalise AlarmOff by StopOnAlarm, StartQuiet;
conflict Firedamp: PumpOn, Safe boundary eventually (methane and water >= 1);
-> 0
kaos report 1 budget 20000
domain consistent: holds
refine 15 Protected complete: holds
refine 15 Protected consistent: holds
refine 15 Protected minimal without Dry: holds
refine 15 Protected minimal without Safe: holds
refine 16 Dry complete: holds
refine 16 Dry consistent: holds
refine 16 Dry minimal without PumpOn: holds
refine 17 Safe complete: holds
refine 17 Safe consistent: holds
refine 17 Safe minimal without Warn: holds
refine 17 Safe minimal without AlarmOff: holds
assign 20 PumpOn Controller covered: holds
assign 21 AlarmOff Controller covered: holds
operationalise 29 PumpOn complete: holds
operationalise 29 PumpOn consistent: holds
operationalise 30 AlarmOff complete: holds
operationalise 30 AlarmOff consistent: holds
conflict 31 Firedamp diverges: holds
conflict 31 Firedamp without PumpOn: holds
conflict 31 Firedamp without Safe: holds
conflict 31 Firedamp feasible: holds
total: 22 hold, 0 fail, 0 withheld
";

#[test]
fn whole_models(rt: HostRuntime) -> Result<(), Fail> {
    all_answer(&rt, rt.alloc(), LINES, MODELS)
}
