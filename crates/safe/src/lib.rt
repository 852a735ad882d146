// Safe plans (document 01, 'When a plan is safe'): Rule 1, Rule 3, and step C's choice, over a lent table of reports.
// What a search needs is prepared once: who comes in for which plan at the next view and at view u, and whose lock allows which plan at view u.
#![tactic(auto)]

ghost use Rattle.std.specs.Prelude.{◌+◌, ◌-◌, ◌*◌, ◌≤◌, ◌<◌, ◌≡◌, cond, not, true, false, ◌&&◌, length, get_or};
ghost use Rattle.rules.specs.Sets.{equals};
ghost use Rattle.settings.specs.Vaults.{vaults_of};
ghost use Rattle.rules.specs.Rules.{reporting, unlocked, allows, rule3};
ghost use Rattle.rules.specs.inside.Counts.{free, two_sets, safe, smaller, choice};
ghost use Rattle.rules.specs.inside.Views.{lock_span, lowest_view, Lowest};
ghost use Rattle.claims.specs.inside.Rows.{rows_size, Stance, RowTells, SameBelow};
ghost use Rattle.claims.specs.inside.Walk.{claimed_in, end_of};
ghost use Rattle.claims.specs.inside.Spans.{AreSpans};
ghost use Rattle.claims.specs.Table.{column, table_size, reports_in_table};
ghost use Rattle.safe.specs.Choices.{rule_of, chosen};
ghost use Rattle.safe.specs.inside.Choices.{better, apart, Found};
ghost use Rattle.safe.specs.inside.Searches.{lock_row, allowed_in, served_from, safe_in, passes_in, tried_at, tried_count, smallest_from, smallest_of, Pair, Falling, Laid, Prepared, every_safe, Begun};

use claims::{Search, Tally};
use settings::Settings;

// Where the row of locks begins.
const LOCKS: usize = claims::COLUMN;

// ---- locks

// The view + 1 of vault r's lock, 0 where it has none.
fn lock_of<'a>(table: &'a [u64; claims::TABLE], r: usize) -> u64
    requires { r < column }
    ensures { result ≡ get_or table.now (column * 5 + r) 0 }
{
    table[claims::LOCK + r]
}

// What vault r adds to the reporters that have no lock.
fn unlocked_share<'a>(table: &'a [u64; claims::TABLE], r: usize) -> usize
    requires { r < column }
    ensures { result ≡ cond (reporting (reports_in_table table.now) unlocked r) 1 0 }
{
    usize::from(claims::reported(table, r) && lock_of(table, r) == 0)
}

// Whether 'some quorum q of reporters has no lock at all'.
fn free<'a>(table: &'a [u64; claims::TABLE], n: usize, f: usize) -> bool
    requires { (n ≤ column) × (f < n) }
    ensures { result ≡ free (equals n f) (reports_in_table table.now) }
{
    let mut count: usize = 0;
    for r in 0..n {
        count += unlocked_share(table, r);
    }
    claims::is_quorum(count, n, f)
}

// In how many views below v vault r has a lock above the view: in all where it has not reported.
fn lock_span<'a>(table: &'a [u64; claims::TABLE], r: usize, v: u32) -> u32
    requires { r < column }
    ensures { result ≡ lock_span v (reports_in_table table.now r) }
{
    if claims::reported(table, r) {
        let above = lock_of(table, r);
        if (v as u64) < above {
            return v;
        }
        return above.saturating_sub(1) as u32;
    }
    v
}

// These spans of the first n vaults.
fn lock_spans<'a>(table: &'a [u64; claims::TABLE], n: usize, v: u32) -> [u32; claims::COLUMN]
    requires { n ≤ column }
    ensures { AreSpans result n (λ i. lock_span v (reports_in_table table.now i)) }
{
    let mut spans = [0u32; claims::COLUMN];
    for r in 0..n {
        spans[r] = lock_span(table, r, v);
    }
    spans
}

// The lowest view that can serve a plan, v where there is none: some quorum of reporters has no lock above it.
// Below it no plan is allowed, above it every plan is.
fn lowest_view<'a>(table: &'a [u64; claims::TABLE], n: usize, f: usize, v: u32) -> u32
    requires { n ≤ column }
    ensures { result ≡ lowest_view (equals n f) (reports_in_table table.now) v }
{
    let spans = lock_spans(table, n, v);
    claims::lowest_cleared(&spans, n, f, v)
}

// Which plans the lock of vault r allows at view u: every plan where it has none or a lower one, its own where it is at view u.
fn allow_share<'a>(table: &'a [u64; claims::TABLE], r: usize, u: u64) -> Tally
    requires { r < column }
    ensures { Stance (λ p. reporting (reports_in_table table.now) (allows p u) r) (get_or table.now (column * 6 + r) 0) result.every result.some }
{
    if claims::reported(table, r) {
        let above = lock_of(table, r);
        if above <= u {
            return Tally { every: 1, some: 0 };
        }
        if above - 1 == u {
            return Tally { every: 0, some: 1 };
        }
        return Tally { every: 0, some: 0 };
    }
    Tally { every: 0, some: 0 }
}

// Whose lock allows which plan at view u: the row of locks is written.
fn locks_at<'a>(
    table: &'a [u64; claims::TABLE],
    n: usize,
    u: u32,
    plans: &mut [u64; claims::ROWS],
) -> Tally
    requires { n ≤ column }
    ensures { SameBelow plans.old plans.new lock_row × RowTells (reports_in_table table.now) n (λ p. allows p u) plans.new lock_row result }
{
    let view = u as u64;
    let mut tally = Tally { every: 0, some: 0 };
    for r in 0..n {
        let share = allow_share(table, r, view);
        tally = claims::add_share(plans, LOCKS, tally, share, table[claims::LOCKED + r]);
    }
    tally
}

// ---- what is prepared

// All rows, for the search that starts at view u. The rows are lent: by value they would be copied at each return.
fn prepare<'a>(
    table: &'a [u64; claims::TABLE],
    n: usize,
    f: usize,
    u: u32,
    v: u32,
    plans: &mut [u64; claims::ROWS],
) -> Search
    requires { (n ≤ column) × (f < n) × (u < v) }
    ensures { Prepared (reports_in_table table.now) result plans.new × (result.n ≡ n) × (result.f ≡ f) × (result.u ≡ u) × (result.v ≡ v) }
{
    let end = claims::end_of(u, v);
    let coming = claims::claims_from(table, n, u, end, plans);
    let next = coming.next;
    let here = coming.here;
    let locks = locks_at(table, n, u, plans);
    Search {
        n,
        f,
        u,
        v,
        next,
        here,
        locks,
    }
}

// ---- one plan

// Whether some quorum of reporters has no lock that stands against p at view u.
fn allowed<'a>(plans: &'a [u64; claims::ROWS], c: Search, p: u64) -> bool
    requires { Laid c plans.now }
    ensures { result ≡ allowed_in plans.now c p }
{
    claims::is_quorum(claims::count_for(plans, LOCKS, c.locks, p), c.n, c.f)
}

// Whether a candidate view, not below low, serves p.
fn served<'a>(plans: &'a [u64; claims::ROWS], c: Search, low: u32, p: u64) -> bool
    requires { Laid c plans.now }
    ensures { result ≡ served_from plans.now c low p }
{
    claims::serving_view(plans, c, low, p) < c.v
}

// Whether p is safe by Rule 1: view u can serve it where the locks there allow it, and the next view can.
fn safe_one<'a>(plans: &'a [u64; claims::ROWS], c: Search, p: u64) -> bool
    requires { Laid c plans.now }
    ensures { result ≡ safe_in plans.now c p }
{
    if allowed(plans, c, p) {
        return served(plans, c, c.u, p);
    }
    served(plans, c, c.u + 1, p)
}

// ---- the two-set clause

// Whether x is not the plan to be left out, if any.
fn differs(except: Option<u64>, x: u64) -> bool
    ensures { result ≡ apart x (chosen except) }
{
    except.is_none_or(|m| x != m)
}

// Plan 0, or 1 where 0 is left out: it stands for all plans that are in no row.
fn first_plan(except: Option<u64>) -> u64
    ensures { apart result (chosen except) ≡ true }
{
    if differs(except, 0) { 0 } else { 1 }
}

// Whether plan x is not left out and is claimed at view w. The plan tried last, which did not pass, is not tried again.
fn other_claimed<'a>(
    plans: &'a [u64; claims::ROWS],
    c: Search,
    w: u32,
    except: Option<u64>,
    last: u64,
    x: u64,
) -> bool
    requires { Laid c plans.now × ((apart last (chosen except) && served_from plans.now c w last) ≡ false) }
    ensures { result ≡ (apart x (chosen except) && served_from plans.now c w x) }
{
    if x != last {
        if differs(except, x) {
            return served(plans, c, w, x);
        }
    }
    false
}

// A plan that is claimed at the candidate view w, if any, and is not left out: the first plan, or one of those that come in up to there.
fn find_claimed<'a>(
    plans: &'a [u64; claims::ROWS],
    c: Search,
    w: u32,
    except: Option<u64>,
) -> Option<u64>
    requires { Laid c plans.now × Falling plans.now c × (c.u ≤ w) × (w < end_of c) }
    ensures { Found (λ x. apart x (chosen except) && claimed_in plans.now c x w) (chosen result) }
{
    let first = first_plan(except);
    if served(plans, c, w, first) {
        return Some(first);
    }
    let coming = claims::coming_at(c, w);
    let end = coming.from + coming.some;
    let mut last = first;
    for r in 0..end {
        let x = plans[r];
        if other_claimed(plans, c, w, except, last, x) {
            return Some(x);
        }
        last = x;
    }
    None
}

// The two-set clause at view u: a plan that is claimed at the next view, and another plan that is claimed at u.
fn two_sets<'a>(plans: &'a [u64; claims::ROWS], c: Search) -> bool
    requires { Laid c plans.now × Falling plans.now c × (c.u + 1 < c.v) }
    ensures { Pair (λ x. claimed_in plans.now c x (c.u + 1)) (λ x. claimed_in plans.now c x c.u) result }
{
    let next = find_claimed(plans, c, c.u + 1, None);
    if next.is_some() {
        return find_claimed(plans, c, c.u, next).is_some();
    }
    false
}

// The same at the next view, where that is below v.
fn two_sets_after<'a>(table: &'a [u64; claims::TABLE], c: Search) -> bool
    requires { (c.n ≤ column) × (c.f < c.n) × (c.u + 1 < c.v) }
    ensures { result ≡ two_sets (equals c.n c.f) (reports_in_table table.now) c.v (c.u + 1) }
{
    let low = c.u + 1;
    if low + 1 < c.v {
        let mut plans = [0u64; claims::ROWS];
        let later = prepare(table, c.n, c.f, low, c.v, &mut plans);
        return two_sets(&plans, later);
    }
    false
}

// ---- Rules 1 and 3

// Whether p is safe by Rule 3, which also accepts the two-set clause at the view that Rule 1 goes by.
fn safe_three<'a>(
    table: &'a [u64; claims::TABLE],
    plans: &'a [u64; claims::ROWS],
    c: Search,
    p: u64,
) -> bool
    requires { (c.n ≤ column) × Prepared (reports_in_table table.now) c plans.now × Lowest (equals c.n c.f) (reports_in_table table.now) c.v c.u }
    ensures { result ≡ safe rule3 (equals c.n c.f) (reports_in_table table.now) c.v p }
{
    if safe_one(plans, c, p) {
        return true;
    }
    if c.u + 1 < c.v {
        if allowed(plans, c, p) {
            return two_sets(plans, c);
        }
        return two_sets_after(table, c);
    }
    false
}

// Whether every plan is safe: in view 0, and where some quorum has no lock at all.
fn every_safe<'a>(table: &'a [u64; claims::TABLE], n: usize, f: usize, v: u32) -> bool
    requires { (n ≤ column) × (f < n) }
    ensures { result ≡ every_safe (equals n f) (reports_in_table table.now) v }
{
    if v == 0 {
        return true;
    }
    free(table, n, f)
}

// All rows, for the search of a call: it starts at the lowest view u that can serve a plan.
fn begin<'a>(
    table: &'a [u64; claims::TABLE],
    n: usize,
    f: usize,
    u: u32,
    v: u32,
    plans: &mut [u64; claims::ROWS],
) -> Search
    requires { (n ≤ column) × (f < n) × Lowest (equals n f) (reports_in_table table.now) v u }
    ensures { Begun (reports_in_table table.now) n f v result plans.new }
{
    prepare(table, n, f, u, v, plans)
}

// Whether p is safe in view v: by Rule 3 where three is set, by Rule 1 where not.
pub fn safe_by<'a>(
    table: &'a [u64; claims::TABLE],
    set: Settings,
    v: u32,
    p: u64,
    three: bool,
) -> bool
    requires { (set.n ≤ 64) × (set.f < set.n) }
    ensures { result ≡ safe (rule_of three) (vaults_of set) (reports_in_table table.now) v p }
{
    let n = set.n as usize;
    let f = set.f as usize;
    if every_safe(table, n, f, v) {
        return true;
    }
    let u = lowest_view(table, n, f, v);
    if u < v {
        let mut plans = [0u64; claims::ROWS];
        let s = begin(table, n, f, u, v, &mut plans);
        if three {
            return safe_three(table, &plans, s, p);
        }
        return safe_one(&plans, s, p);
    }
    false
}

// ---- step C

// Whether x is smaller than the plan chosen so far, if any.
fn improves(best: Option<u64>, x: u64) -> bool
    ensures { result ≡ better x (chosen best) }
{
    best.is_none_or(|y| x < y)
}

// Whether view u serves a lock's plan, or the next view a highest vote's.
fn passes<'a>(plans: &'a [u64; claims::ROWS], c: Search, locked: bool, x: u64) -> bool
    requires { Laid c plans.now }
    ensures { result ≡ passes_in plans.now c locked x }
{
    if locked {
        if allowed(plans, c, x) {
            return served(plans, c, c.u, x);
        }
        return false;
    }
    served(plans, c, c.u + 1, x)
}

// The smallest plan that passes, once x has been tried. The plan tried last is not tried again.
fn smaller_passing<'a>(
    plans: &'a [u64; claims::ROWS],
    c: Search,
    locked: bool,
    last: u64,
    x: u64,
    best: Option<u64>,
) -> Option<u64>
    requires { Laid c plans.now × (smaller (passes_in plans.now c locked last) last (chosen best) ≡ chosen best) }
    ensures { chosen result ≡ smaller (passes_in plans.now c locked x) x (chosen best) }
{
    if x == last {
        return best;
    }
    if improves(best, x) {
        if passes(plans, c, locked, x) {
            return Some(x);
        }
        return best;
    }
    best
}

// Where the plans to try begin, of locks or of votes, and how many there are.
fn tried_at(locked: bool) -> usize
    ensures { result ≡ tried_at locked }
{
    if locked { LOCKS } else { 0 }
}

fn tried_count(c: Search, locked: bool) -> usize
    ensures { result ≡ tried_count c locked }
{
    if locked { c.locks.some } else { c.next.some }
}

// The smallest plan that passes, of one row, or the best so far where that is smaller. The plan start does not pass.
fn smallest_in<'a>(
    plans: &'a [u64; claims::ROWS],
    c: Search,
    locked: bool,
    start: u64,
    best: Option<u64>,
) -> Option<u64>
    requires { Laid c plans.now × (passes_in plans.now c locked start ≡ false) }
    ensures { chosen result ≡ smallest_from (chosen best) (passes_in plans.now c locked) (λ i. get_or plans.now (tried_at locked + i) 0) (tried_count c locked) }
{
    let at = tried_at(locked);
    let count = tried_count(c, locked);
    let mut found = best;
    let mut last = start;
    for r in 0..count {
        let x = plans[at + r];
        found = smaller_passing(plans, c, locked, last, x, found);
        last = x;
    }
    found
}

// The smallest plan that is safe by Rule 1, where start is not: of the locks at view u, and of the votes that come in at the next view.
fn smallest_safe<'a>(plans: &'a [u64; claims::ROWS], c: Search, start: u64) -> Option<u64>
    requires { Laid c plans.now × (passes_in plans.now c true start ≡ false) × (passes_in plans.now c false start ≡ false) }
    ensures { chosen result ≡ smallest_of plans.now c }
{
    let best = smallest_in(plans, c, true, start, None);
    smallest_in(plans, c, false, start, best)
}

// Step C: 'proposes its starting plan if that is safe by Rule 1, else the smallest safe plan, else waits'.
pub fn choose<'a>(table: &'a [u64; claims::TABLE], set: Settings, v: u32, start: u64) -> Option<u64>
    requires { (set.n ≤ 64) × (set.f < set.n) }
    ensures { chosen result ≡ choice (vaults_of set) (reports_in_table table.now) v start }
{
    let n = set.n as usize;
    let f = set.f as usize;
    if every_safe(table, n, f, v) {
        return Some(start);
    }
    let u = lowest_view(table, n, f, v);
    if u < v {
        let mut plans = [0u64; claims::ROWS];
        let s = begin(table, n, f, u, v, &mut plans);
        if safe_one(&plans, s, start) {
            return Some(start);
        }
        return smallest_safe(&plans, s, start);
    }
    None
}
