// An event that a drive never makes: event k of an instance. Elsewhere its place is two numbers, as in every call of a chart.
#[derive(Clone, Copy)]
pub struct Held {
    pub instance: usize,
    pub event: usize,
}
