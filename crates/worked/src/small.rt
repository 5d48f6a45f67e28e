ghost use Rattle.worked.specs.SmallCharts.{SmallCharts};

// What the definitions say of five small charts.
pub fn small_charts_behave()
    ensures { SmallCharts }
{}
