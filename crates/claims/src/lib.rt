// Claims: who claims which plan at a view (document 01, 'When a plan is safe'), from a lent table of reports, prepared in a row of plans.
// A plan's walk goes down the candidate views with one count and ends at the first one that serves the plan. So does the lock search, by spans.
#![tactic(auto)]

ghost use Rattle.std.specs.Prelude.{◌+◌, ◌-◌, ◌*◌, ◌≤◌, ◌<◌, ◌≡◌, cond, not, leb, eqb, length, set};
ghost use Rattle.rules.specs.Sets.{weigh};
ghost use Rattle.claims.specs.inside.Rows.{rows_size, Words, for_plan, FitsRow, added, SameBelow};
ghost use Rattle.claims.specs.inside.Spans.{stands_at, covered_views, highest_to, Within, AreSpans};
ghost use Rattle.claims.specs.inside.Walk.{reach_by, reach_in, claim_end, other_plan, standing, Listed, InOrder, others_of};
ghost use Rattle.claims.specs.inside.Walk.{FitsComing, end_at, end_of, coming_at, claimed_in, serving_view, Told};
ghost use Rattle.claims.specs.Table.{column, table_size, reporter, reports_in_table};

// The places of a column, one for each vault, and of the table.
pub const COLUMN: usize = 64;

pub const TABLE: usize = 7 * COLUMN;

// The places of the two rows of plans.
pub const ROWS: usize = 2 * COLUMN;

// Where the columns begin of the view + 1 and of the plan: of the highest vote, of the previous vote, and of the lock.
pub const HIGHEST: usize = COLUMN;

const VOTED: usize = 2 * COLUMN;

pub const PREVIOUS: usize = 3 * COLUMN;

const PREVIOUS_PLAN: usize = 4 * COLUMN;

pub const LOCK: usize = 5 * COLUMN;

pub const LOCKED: usize = 6 * COLUMN;

// How many are for every plan, and how many others for one plan only, which stands in a row of plans.
#[derive(Clone, Copy)]
pub struct Tally {
    pub every: usize,
    pub some: usize,
}

// Who comes in at a candidate view: how many for every plan; how many for one plan only, which stands in the row, from a place on; and
// how many for every plan but one: those plans are the row's first.
#[derive(Clone, Copy)]
pub struct Coming {
    pub every: usize,
    pub from: usize,
    pub some: usize,
    pub others: usize,
}

// Who comes in at the view after u, and at u.
#[derive(Clone, Copy)]
pub struct Claims {
    pub next: Coming,
    pub here: Coming,
}

// What a search goes by: n and f, the view v, the lowest view u that can serve a plan; who comes in at the next view and at view u, and
// whom the locks let be at view u.
#[derive(Clone, Copy)]
pub struct Search {
    pub n: usize,
    pub f: usize,
    pub u: u32,
    pub v: u32,
    pub next: Coming,
    pub here: Coming,
    pub locks: Tally,
}

// 'A blocking set [is] f + 1 or more vaults'.
pub fn is_blocking(count: usize, f: usize) -> bool
    ensures { result ≡ leb (f + 1) count }
{
    f < count
}

// 'A quorum is n - f or more vaults'.
pub fn is_quorum(count: usize, n: usize, f: usize) -> bool
    requires { f < n }
    ensures { result ≡ leb (n - f) count }
{
    n - f <= count
}

// What a vault adds to those that stand at k: its number is its standing in the row of claims, and the end of its span in the search over locks.
fn share_at(s: u32, k: u32) -> u32
    ensures { result ≡ cond (eqb s k) 1 0 }
{
    u32::from(s == k)
}

// Whether vault r has reported.
pub fn reported<'a>(table: &'a [u64; TABLE], r: usize) -> bool
    requires { r < column }
    ensures { result ≡ reporter table.now r }
{
    table[r] != 0
}

// ---- how far claims reach

// A vote's view, given its view + 1. It is 0 where there is none.
fn view_of(above: u64) -> u64
    ensures { result ≡ above - 1 }
{
    above.saturating_sub(1)
}

// A vote that a report tells: its view, 0 where there is none, and its plan.
#[derive(Clone, Copy)]
pub struct Vote {
    pub view: u64,
    pub plan: u64,
}

// A vote's view where the vote counts, else 0.
fn view_if(view: u64, counts: bool) -> u64
    ensures { result ≡ cond counts view 0 }
{
    if counts { view } else { 0 }
}

// Rules 2 and 4: the highest view at which a report with these two votes claims plan p, that of its highest vote, if that is for p, or of
// its previous vote, which counts for every plan. Whoever asks about claims asks this (document 02, wish 7).
pub fn reach(highest: Vote, previous: Vote, p: u64) -> u64
    ensures { result ≡ reach_by highest previous p }
{
    let every = view_if(previous.view, true);
    let own = view_if(highest.view, highest.plan == p);
    own.max(every)
}

// How far the report of vault r reaches for plan p.
fn reach_of<'a>(table: &'a [u64; TABLE], r: usize, p: u64) -> u64
    requires { r < column }
    ensures { result ≡ reach_in table.now r p }
{
    let highest = Vote {
        view: view_of(table[HIGHEST + r]),
        plan: table[VOTED + r],
    };
    let previous = Vote {
        view: view_of(table[PREVIOUS + r]),
        plan: table[PREVIOUS_PLAN + r],
    };
    reach(highest, previous, p)
}

// In how many views below end, from 0 on, vault r claims plan p: in none where it has not reported.
fn claim_end<'a>(table: &'a [u64; TABLE], r: usize, p: u64, end: u32) -> u32
    requires { r < column }
    ensures { result ≡ claim_end end p (reports_in_table table.now r) }
{
    if reported(table, r) {
        let reach = reach_of(table, r, p);
        if reach < end as u64 {
            return (reach + 1) as u32;
        }
        return end;
    }
    0u32
}

// How many of the views below end are u or above.
fn views_from(end: u32, u: u32) -> u32
    ensures { result ≡ end - u }
{
    end.saturating_sub(u)
}

// A plan that is not x: a report claims all of these alike, where x is the plan of its highest vote.
fn other_plan(x: u64) -> u64
    ensures { result ≡ other_plan x }
{
    if x == 0 { 1 } else { 0 }
}

// Where a vault stands that claims every plan in both candidate views; the plan of its highest vote in both, and the others at u; that plan
// in both; every plan at u; that plan at u. They stay numbers: a standing is a sum, and `standing` in specs/ gives these.
const EVERY_NEXT: u32 = 6;

const OWN_NEXT_OTHERS_HERE: u32 = 5;

const OWN_NEXT: u32 = 4;

const EVERY_HERE: u32 = 3;

const OWN_HERE: u32 = 2;

// Where vault r stands: twice the candidate views in which it claims the plan of its highest vote, and those in which it claims the others.
fn standing_of<'a>(table: &'a [u64; TABLE], r: usize, u: u32, end: u32) -> u32
    requires { (r < column) × (end ≤ u + 2) }
    ensures { result ≡ standing table.now u end r }
{
    let x = table[VOTED + r];
    let own = views_from(claim_end(table, r, x, end), u);
    let others = views_from(claim_end(table, r, other_plan(x), end), u);
    own + own + others
}

// Where the first n vaults stand.
fn standings<'a>(table: &'a [u64; TABLE], n: usize, u: u32, end: u32) -> [u32; COLUMN]
    requires { (n ≤ column) × (end ≤ u + 2) }
    ensures { AreSpans result n (standing table.now u end) }
{
    let mut found = [0u32; COLUMN];
    for r in 0..n {
        found[r] = standing_of(table, r, u, end);
    }
    found
}

// ---- the row of claims

// How many stand at k.
fn count_at<'a>(standings: &'a [u32; COLUMN], n: usize, k: u32) -> usize
    requires { n ≤ column }
    ensures { result ≡ weigh (λ i. 1) (stands_at standings.now k) n }
{
    let mut count: u32 = 0;
    for r in 0..n {
        count += share_at(standings[r], k);
    }
    count as usize
}

// The plans of those that stand at k are written, from a place on. A plan that is not one of these is written over. Often there are none.
fn list_at<'a>(
    table: &'a [u64; TABLE],
    standings: &'a [u32; COLUMN],
    n: usize,
    k: u32,
    plans: &mut [u64; ROWS],
    from: usize,
) -> usize
    requires { (n ≤ column) × (from ≤ column) }
    ensures listed { SameBelow plans.old plans.new from × Listed table.now standings.now n k plans.new from result }
    ensures words { Words plans.new }
{
    let total = count_at(standings, n, k);
    let mut count: usize = 0;
    for r in 0..n {
        if count == total {
            return count;
        }
        plans[from + count] = table[VOTED + r];
        count += share_at(standings[r], k) as usize;
    }
    count
}

// How many plans are listed: of those that claim their own in both candidate views, with the others at u or not, and of those that claim
// their own at u.
#[derive(Clone, Copy)]
struct Row {
    both: usize,
    only: usize,
    here: usize,
}

// The row of claims, in the order in which reporters come in.
fn write_row<'a>(
    table: &'a [u64; TABLE],
    standings: &'a [u32; COLUMN],
    n: usize,
    plans: &mut [u64; ROWS],
) -> Row
    requires { n ≤ column }
    ensures in_order { InOrder table.now standings.now n plans.new result.both result.only result.here }
    ensures words { Words plans.new }
{
    let both = list_at(table, standings, n, OWN_NEXT_OTHERS_HERE, plans, 0);
    let only = list_at(table, standings, n, OWN_NEXT, plans, both);
    let here = list_at(table, standings, n, OWN_HERE, plans, both + only);
    Row { both, only, here }
}

// Who claims which plan at the candidate views below end: who comes in at each, by the row that is written.
pub fn claims_from<'a>(
    table: &'a [u64; TABLE],
    n: usize,
    u: u32,
    end: u32,
    plans: &mut [u64; ROWS],
) -> Claims
    requires { (n ≤ column) × (end ≤ u + 2) }
    ensures told { Told (reports_in_table table.now) n u end plans.new result.next result.here }
    ensures words { Words plans.new }
{
    let found = standings(table, n, u, end);
    let row = write_row(table, &found, n, plans);
    let next = row.both + row.only;
    Claims {
        next: Coming {
            every: count_at(&found, n, EVERY_NEXT),
            from: 0,
            some: next,
            others: 0,
        },
        here: Coming {
            every: count_at(&found, n, EVERY_HERE),
            from: next,
            some: row.here,
            others: row.both,
        },
    }
}

// One report more: its plan is written behind the row, and counts where the report is for that plan only. Else it is written over.
pub fn add_share(plans: &mut [u64; ROWS], at: usize, tally: Tally, share: Tally, plan: u64) -> Tally
    requires { (at + tally.some < rows_size) × (tally.every + share.every ≤ column) × (tally.some + share.some ≤ column) }
    ensures added { (plans.new ≡ set plans.old (at + tally.some) plan) × (result ≡ added tally share) }
    ensures words { Words plans.new }
{
    plans[at + tally.some] = plan;
    Tally {
        every: tally.every + share.every,
        some: tally.some + share.some,
    }
}

// ---- the walk down the candidate views

// The candidate views are u, and the next view where that is below v.
pub fn end_of(u: u32, v: u32) -> u32
    requires { u < v }
    ensures { result ≡ end_at u v }
{
    if u + 1 < v {
        return u + 2;
    }
    v
}

// Who comes in at a candidate view.
pub fn coming_at(c: Search, w: u32) -> Coming
    ensures { result ≡ coming_at c w }
{
    if w == c.u {
        return c.here;
    }
    c.next
}

// What a plan of the row adds to those that are for p.
fn plan_share(x: u64, p: u64) -> usize
    ensures { result ≡ cond (eqb x p) 1 0 }
{
    usize::from(x == p)
}

// What it adds to those that are for every plan but it.
fn other_share(x: u64, p: u64) -> usize
    ensures { result ≡ cond (not (eqb x p)) 1 0 }
{
    usize::from(x != p)
}

// How many of the first k plans are not p.
fn others_for<'a>(plans: &'a [u64; ROWS], k: usize, p: u64) -> usize
    requires { k ≤ column }
    ensures { result ≡ others_of plans.now k p }
{
    let mut count: usize = 0;
    for r in 0..k {
        count += other_share(plans[r], p);
    }
    count
}

// How many are for plan p, by the row that begins at a place.
pub fn count_for<'a>(plans: &'a [u64; ROWS], at: usize, tally: Tally, p: u64) -> usize
    requires { (at + column ≤ rows_size) × FitsRow tally }
    ensures { result ≡ for_plan plans.now at tally p }
{
    let some = tally.some;
    let mut count = tally.every;
    for r in 0..some {
        count += plan_share(plans[at + r], p);
    }
    count
}

// The walk down the candidate views, not below low: the first view at which a blocking set of reporters claims plan p, v where there is
// none. The count is new for every plan, and carried from view to view. The nested loops with labels are a form that document 01 names.
pub fn serving_view<'a>(plans: &'a [u64; ROWS], c: Search, low: u32, p: u64) -> u32
    requires { (c.u < c.v) × FitsComing c.next × FitsComing c.here }
    ensures { result ≡ serving_view (claimed_in plans.now c p) low c.v (end_of c) }
{
    let mut end = end_of(c.u, c.v);
    let mut claimers: usize = 0;
    let serving: u32 = 'views: loop {
        if end <= low {
            break 'views c.v;
        }
        let w = end - 1;
        let coming = coming_at(c, w);
        let from = coming.from;
        let some = coming.some;
        claimers = claimers + (coming.every + others_for(plans, coming.others, p));
        'reporters: for r in 0..some {
            claimers += plan_share(plans[from + r], p);
        }
        if is_blocking(claimers, c.f) {
            break 'views w;
        }
        end = w;
    };
    serving
}

// ---- the search over locks

// A span that is not above w, 0 for one that is.
fn span_to(t: u32, w: u32) -> u32
    ensures { result ≡ cond (leb t w) t 0 }
{
    if t <= w { t } else { 0 }
}

// The highest span that is not above w.
fn highest_to<'a>(spans: &'a [u32; COLUMN], n: usize, w: u32) -> u32
    requires { n ≤ column }
    ensures { result ≡ highest_to spans.now w n }
{
    let mut best: u32 = 0;
    for r in 0..n {
        best = best.max(span_to(spans[r], w));
    }
    best
}

// The lowest view that fewer than f + 1 of the spans cover, downwards from v: some quorum has no lock above it.
// Between two ends of spans the same spans cover a view, so the candidates are the ends. The count is carried down the candidates: a lock
// above a view is above every lower view, so at each candidate only those come in whose span ends there, and each vault is counted once.
// The nested loops with labels are a form that document 01 names.
pub fn lowest_cleared<'a>(spans: &'a [u32; COLUMN], n: usize, f: usize, v: u32) -> u32
    requires { (n ≤ column) × Within spans.now n v }
    ensures { result ≡ covered_views spans.now n f v }
{
    let mut t = highest_to(spans, n, v);
    let mut locks: u32 = 0;
    let lowest: u32 = 'views: loop {
        if t == 0 {
            break 'views 0;
        }
        'reporters: for r in 0..n {
            locks += share_at(spans[r], t);
        }
        if is_blocking(locks as usize, f) {
            break 'views t;
        }
        t = highest_to(spans, n, t - 1);
    };
    lowest
}
