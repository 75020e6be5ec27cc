/// What the words of a command line ask for.
#[derive(Clone, Copy, Debug, PartialEq, Eq)]
pub enum Command {
    /// Run the workload that is read, and write its report, or where `brief` is set its summary alone.
    Run { brief: bool },
    /// Make a workload of `count` programs, 1 to 2,000, from the seed, at most 999,999,999.
    Make { seed: u32, count: u32 },
    /// Judge the report that is read behind its workload.
    Check,
    /// Judge it too, and where it is sound say which switch its entries with the last so many ends speak for,
    /// 1 to 2,000 of them.
    Advise { last: u32 },
}
