ghost use Rattle.std.specs.Prelude.{◌≡◌, IfOk};
ghost use Rattle.charts.specs.Faults.{layer_of};
ghost use Rattle.joins.specs.Weighed.{weighed, Small, limited_to};

use charts::{Chart, Fault, Layer, MOST_EVENTS, MOST_INSTANCES, Rule, Summary};

// The greatest span of a chart.
const MOST_SPAN: usize = 4096;

// The sizes of two charts, or the first fault.
pub(crate) fn weigh<A: Chart, B: Chart>(a: &A, b: &B) -> Result<(Summary, Summary), Fault>
    ensures value { result ≡ weighed (A.Chart.trouble a.now) (B.Chart.trouble b.now) (A.Chart.lists a.now) (B.Chart.lists b.now) }
    ensures small { IfOk result (λ sizes. Small sizes.0 × Small sizes.1) }
{
    let first = a.summary()?;
    let second = b.summary()?;
    Ok((first, second))
}

// The size of a join, or its fault where the size passes a limit.
pub(crate) fn limited(layer: Layer, size: Summary) -> Result<Summary, Fault>
    ensures { result ≡ limited_to (layer_of layer) size }
{
    if size.width <= MOST_INSTANCES && size.events <= MOST_EVENTS && size.span <= MOST_SPAN {
        return Ok(size);
    }
    Err(Fault::of_whole(layer, Rule::Limits))
}
