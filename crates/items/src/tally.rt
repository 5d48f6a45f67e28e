use names::Names;

// What the items that were read come to: the names of instances, and how many items, instances and events there were.
#[derive(Drop)]
pub(crate) struct Tally<'t> {
    pub(crate) names: Names<'t>,
    pub(crate) read: usize,
    pub(crate) instances: usize,
    pub(crate) events: usize,
}
