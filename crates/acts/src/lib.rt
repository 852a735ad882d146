// When each step of document 01's pass acts ('One pass', A to H), read off a record's lent bytes: A and B are lent its shared part,
// C to H the practice's block. The answer says what is to be done.
#![tactic(auto)]

ghost use Rattle.std.specs.Prelude.{◌≤◌, ◌<◌, ◌≡◌};
ghost use Rattle.record.specs.Layout.{decode_record};
ghost use Rattle.safe.specs.Choices.{chosen};
ghost use Rattle.protocol.specs.Pass.{may_propose, act_a, act_b, act_c, act_d, act_vote, act_h};
ghost use Rattle.contents.specs.Contents.{contents_in};
ghost use Rattle.contents.specs.inside.Ready.{Ready};
ghost use Rattle.acts.specs.inside.Acts.{as_act, act_at};
ghost use Rattle.acts.specs.inside.Lent.{LentRecord};
ghost use Rattle.acts.specs.inside.Proposals.{safe_plan};

use frame::numbers;
use settings::Settings;

// What a step does: ask for a view, enter it, send a vote (0: a proposal) for a plan, or decide a plan.
#[derive(Clone, Copy)]
pub enum Act {
    Ask(u32),
    Enter(u32),
    Cast(u8, u64),
    Decide(u64),
}

// ---- A and B: view-changes

// Step A.
fn act_a(rec: &[u8], set: Settings, view: u32) -> Option<Act>
    requires { LentRecord rec.now set view }
    ensures { as_act result ≡ act_a (contents_in rec.now) }
{
    let shared = &rec[0..record::SHARED];
    let low = tally::change_above(
        shared,
        record::HEAD + record::SLOT * (set.id as usize),
        view,
    );
    let w = tally::highest_change(shared, set.n as usize, (set.f as usize) + 1, low);
    if low < w {
        return Some(Act::Ask(w));
    }
    None
}

// Step B.
fn act_b(rec: &[u8], set: Settings, view: u32) -> Option<Act>
    requires { LentRecord rec.now set view }
    ensures { as_act result ≡ act_b (contents_in rec.now) }
{
    let n = set.n as usize;
    let w = tally::highest_change(&rec[0..record::SHARED], n, n - (set.f as usize), view);
    if view < w {
        return Some(Act::Enter(w));
    }
    None
}

// ---- C and D: proposals, and what is safe

// Whether the vault leads this view, and has not proposed in it.
fn may_propose(rec: &[u8], set: Settings, view: u32) -> bool
    requires { LentRecord rec.now set view }
    ensures { result ≡ may_propose (contents_in rec.now) }
{
    if tally::leader(view, set.n as usize) != set.id as usize {
        return false;
    }
    !tally::sent(&rec[record::SHARED..record::SIZE], 0, set.id, view)
}

// What is safe by the reports kept of this view. In suggests (kind 7), for C: p, else the smallest safe plan. In proofs (kind 8), for D: p.
// In view 0 every plan is safe, and no report is read.
fn safe_plan(rec: &[u8], set: Settings, view: u32, kind: u8, p: u64) -> Option<u64>
    requires { LentRecord rec.now set view × (7 ≤ kind) × (kind ≤ 8) }
    ensures { chosen result ≡ safe_plan (contents_in rec.now) kind p }
{
    if view == 0 {
        return Some(p);
    }
    let table = tally::gather(&rec[record::SHARED..record::SIZE], kind, set.n, view);
    if kind == numbers::SUGGEST {
        return safe::choose(&table, set, view, p);
    }
    if safe::safe_by(&table, set, view, p, true) {
        return Some(p);
    }
    None
}

// Step C.
fn act_c(rec: &[u8], set: Settings, view: u32) -> Option<Act>
    requires { LentRecord rec.now set view }
    ensures { as_act result ≡ act_c (contents_in rec.now) }
{
    if may_propose(rec, set, view) {
        let p = safe_plan(rec, set, view, numbers::SUGGEST, record::plan_of(rec))?;
        return Some(Act::Cast(0, p));
    }
    None
}

// Step D.
fn act_d(rec: &[u8], set: Settings, view: u32) -> Option<Act>
    requires { LentRecord rec.now set view }
    ensures { as_act result ≡ act_d (contents_in rec.now) }
{
    let block = &rec[record::SHARED..record::SIZE];
    if tally::sent(block, 1, set.id, view) {
        return None;
    }
    let at = tally::vote_place(0, tally::leader(view, set.n as usize) as u8);
    if tally::is_of_view(block, at, view) {
        let p = safe_plan(rec, set, view, numbers::PROOF, record::plan_at(block, at))?;
        return Some(Act::Cast(1, p));
    }
    None
}

// ---- E to H: votes

// Steps E, F, G for k = 1, 2, 3.
fn act_vote(rec: &[u8], set: Settings, view: u32, k: u8) -> Option<Act>
    requires { LentRecord rec.now set view × (1 ≤ k) × (k ≤ 3) }
    ensures { as_act result ≡ act_vote (contents_in rec.now) k }
{
    let block = &rec[record::SHARED..record::SIZE];
    if tally::sent(block, k + 1, set.id, view) {
        return None;
    }
    let p = tally::agreed_plan(block, tally::vote_place(k, 0), set, view)?;
    Some(Act::Cast(k + 1, p))
}

// Where the decision's mark stands in the block.
const DECIDED: usize = record::HEAD + record::SLOT * (record::DECISION - record::ROWS);

// Step H.
fn act_h(rec: &[u8], set: Settings, view: u32) -> Option<Act>
    requires { LentRecord rec.now set view }
    ensures { as_act result ≡ act_h (contents_in rec.now) }
{
    let block = &rec[record::SHARED..record::SIZE];
    if block[DECIDED] == numbers::PRESENT {
        return None;
    }
    let p = tally::agreed_plan(block, tally::vote_place(4, 0), set, view)?;
    Some(Act::Decide(p))
}

// What the step of a number, 0 to 7 for A to H, is to do. It stays a number: a pass begins at the step of a number, and `act_at` in specs/ goes by it.
pub fn act_at(rec: &[u8], set: Settings, view: u32, k: u8) -> Option<Act>
    requires { Ready rec.now × (set ≡ (decode_record rec.now).set) × (view ≡ (decode_record rec.now).view) × (k < 8) }
    ensures { as_act result ≡ act_at k (contents_in rec.now) }
{
    match k {
        0 => act_a(rec, set, view),
        1 => act_b(rec, set, view),
        2 => act_c(rec, set, view),
        3 => act_d(rec, set, view),
        4..=6 => act_vote(rec, set, view, k - 3),
        _ => act_h(rec, set, view),
    }
}
