// The flows of records have 16 bits, by their type.
ghost use Rattle.std.specs.Prelude.{All};
ghost use Rattle.cert_file.specs.CutForms.{HasShortFlows, IsShortFlow};

use cert_file::{CutRecord, Flow};

// A flow is read only to show its range to the check.
fn flow_fits(flow: &Flow)
    ensures { IsShortFlow flow.now }
{
    let _x = flow.x;
    let _y = flow.y;
}

fn flows_fit(flows: &[Flow])
    ensures { All IsShortFlow flows.now }
{
    for flow in flows {
        flow_fits(flow);
    }
}

/// Shows that the flows of records have 16 bits, as every flow in memory has. It changes nothing, and takes
/// no memory.
pub fn records_fit(cuts: &[CutRecord])
    ensures { All HasShortFlows cuts.now }
{
    for cut in cuts {
        flows_fit(cut.flows.as_slice());
    }
}
