// What a host is told of the line.
ghost use Rattle.std.specs.Prelude.{◌≡◌};
ghost use Rattle.device.specs.Others.{reported_with, refused_report_of, report_of};

use crate::device::Device;
use accounts::DirectionStats;
use numbers::Refusal;

// The statistics with the accounts merged, and the numbers of copies held and torn.
#[derive(Clone, Copy)]
pub struct Report {
    pub stats: DirectionStats,
    pub held: u64,
    pub torn: u64,
}

// Why a report is refused, and what is told beside it: the statistics are the engine's alone.
#[derive(Clone, Copy)]
pub struct RefusedReport {
    pub refusal: Refusal,
    pub report: Report,
}

impl Device {
    // The report, or a refusal by 25 with what is told beside it.
    #[tactic(auto, unfolding(crate::specs::Others::report_of, crate::specs::Others::reported_by, crate::specs::Refusals::call_refusal, numbers::specs::Checks::first_refusal, numbers::specs::Checks::check_of))]
    pub fn report(&self) -> Result<Report, RefusedReport>
        ensures { result ≡ report_of self.now }
    {
        self.judge_counters()
            .map_err(|refusal| self.refused_report(refusal))?;
        let (stats, merged) = self.accounts.merge_into(self.engine.stats);
        merged.map_err(|refusal| self.refused_report(refusal))?;
        Ok(self.report_with(stats))
    }

    // A report with these statistics.
    fn report_with(&self, stats: DirectionStats) -> Report
        ensures { result ≡ reported_with self.now stats }
    {
        Report {
            stats,
            held: self.queue.len() as u64,
            torn: self.torn,
        }
    }

    // A report that is refused for this reason.
    fn refused_report(&self, refusal: Refusal) -> RefusedReport
        ensures { result ≡ refused_report_of self.now refusal }
    {
        RefusedReport {
            refusal,
            report: self.report_with(self.engine.stats),
        }
    }
}
