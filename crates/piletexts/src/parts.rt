// What a line does to a stack of charts.
#[derive(Clone, Copy, PartialEq, Eq, Debug)]
pub enum Command {
    // pushes the table on the lines that follow, up to a line `.`
    Table,
    // pushes a poll of so many keypads in so many rounds
    Poll(u8, u8),
    // joins the two upper charts, the upper one after the other
    After,
    // joins the two upper charts, the upper one beside the other
    Beside,
    // renames the instances of the upper chart
    Recast([u8; 32]),
}
