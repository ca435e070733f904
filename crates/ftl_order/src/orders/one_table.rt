ghost use Rattle.ftl_order.specs.orders.OneTable.{OneTableWhereReadsEnd, OneListWhereReadsEnd};
ghost use Rattle.ftl_order.specs.orders.OneTable.{ReadsEndByRank};

/// A law: where the chains of reads of a lawful grammar's tree end, some table solves, and any two
/// that solve agree at every instance.
pub fn one_table_where_reads_end()
    ensures one_table { OneTableWhereReadsEnd }
{}

/// A law: and exactly one list of values solves, with one value for each instance.
pub fn one_list_where_reads_end()
    ensures one_list { OneListWhereReadsEnd }
{}

/// A law: where a number falls along the reads, chains of reads end.
pub fn reads_end_by_rank()
    ensures reads_end { ReadsEndByRank }
{}
