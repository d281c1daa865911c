// From what a run leaves to what is told of it.
ghost use Rattle.std.specs.Prelude.{◌≡◌, ◌≤◌, [], length, map, vec_capacity};
ghost use Rattle.closed_lists.specs.Listed.{HasLists};
ghost use Rattle.listed.specs.Vectors.{items_of};
ghost use Rattle.paired_replies.specs.Pairs.{calls_of, replies_to};
ghost use Rattle.table_reports.specs.Reports.{TellsKeys};
ghost use Rattle.workload_text.specs.Limits.{joined};

use key_sums::size_and_sum;
use paired_replies::pair_up;
use record_table::Closed;
use report_text::{Played, Report};
use set_model::{ReclaimerName, SetName};
use set_runs::Played as PlayedSet;
use workload_text::Workload;

/// A run on a table of records.
#[derive(Drop)]
pub struct TableRun {
    /// What it has to tell.
    pub report: Report,
    /// The table, closed by all callers.
    pub closed: Closed,
}

/// The report of a workload that was played on this set under this reclaimer: each call with its reply, the number of
/// keys that the closed table has and their sum, and the counts of the run. `callers` is empty and has room for each
/// caller, so that this takes no memory. There is a reply for each call, and the table is one of sorted lists, as
/// `closed_lists::show_lists` tells.
pub fn report_table(
    set: SetName,
    reclaimer: ReclaimerName,
    workload: Workload,
    played: PlayedSet,
    callers: Vec<Played>,
) -> TableRun
    requires none { callers.items ≡ [] }
    requires room { length workload.lists ≤ vec_capacity callers }
    requires pairs { map length (items_of played.replies.items) ≡ map length (joined workload.lists) }
    requires lists { HasLists played.closed }
    ensures set { result.report.set ≡ set }
    ensures reclaimer { result.report.reclaimer ≡ reclaimer }
    ensures calls { calls_of result.report.callers ≡ joined workload.lists }
    ensures replies { replies_to result.report.callers ≡ items_of played.replies.items }
    ensures counts { result.report.counts ≡ played.counts }
    ensures closed { result.closed ≡ played.closed }
    ensures keys { TellsKeys result.closed result.report }
{
    let PlayedSet {
        closed,
        counts,
        replies,
    } = played;
    let (size, sum) = size_and_sum(&closed);
    let callers = pair_up(workload.into_lists(), replies, callers);
    TableRun {
        report: Report {
            set,
            reclaimer,
            callers,
            size,
            sum,
            counts,
        },
        closed,
    }
}
