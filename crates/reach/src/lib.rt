// Says how high a claim reaches: the highest view at which the reports of a suggest or proof claim a plan (document 02, wish 7).
#![tactic(auto)]

ghost use Rattle.std.specs.Prelude.{◌≡◌};
ghost use Rattle.frame.specs.Format.{three_reports};
ghost use Rattle.frame.specs.Refusal.{first};
ghost use Rattle.frame.specs.Answers.{number_in};
ghost use Rattle.reach.specs.Call.{told_rows, said_reach, reached, claim_reach};

use claims::Vote;
use frame::{Refusal, Reports};

// The bytes of three reports.
const LENGTH: usize = 39;

// Refusals 14 and 22, of reports alone. 21 is not tested, as there is no frame's view.
fn content_refusal(told: Reports) -> Result<(), Refusal>
    ensures { number_in result ≡ first (told_rows (three_reports told)) }
{
    let highest = told.highest;
    let previous = told.previous;
    let form = frame::any_bad_form(told);
    let at_odds = frame::bad_previous(highest, previous);
    if form {
        return Err(Refusal::Report);
    }
    if at_odds {
        return Err(Refusal::Previous);
    }
    Ok(())
}

// How high the claim of reports that are not refused reaches. A report that is absent has view 0.
fn highest_claim(told: Reports, plan: u64) -> u32
    requires { first (told_rows (three_reports told)) ≡ 0 }
    ensures { result ≡ said_reach told plan }
{
    let highest = Vote {
        view: told.highest.view as u64,
        plan: told.highest.plan,
    };
    let previous = Vote {
        view: told.previous.view as u64,
        plan: told.previous.plan,
    };
    claims::reach(highest, previous, plan) as u32
}

// The highest view at which the 39 bytes of a suggest or proof behind its view claim a plan.
pub fn claim_reach(reports: &[u8], plan: u64) -> Result<u32, Refusal>
    ensures { reached result ≡ claim_reach reports.now plan }
{
    if reports.len() != LENGTH {
        return Err(Refusal::Length);
    }
    let told = frame::reader::reports_at(reports, 0);
    content_refusal(told)?;
    Ok(highest_claim(told, plan))
}
