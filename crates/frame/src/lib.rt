// Frames by value, and the tests of refusals 9 to 15, 21 and 22 in the four groups that callers use apart.
#![tactic(auto)]

ghost use Rattle.std.specs.Prelude.{◌≡◌, false, ◌||◌, ◌++◌, ◌<◌};
ghost use Rattle.frame.specs.Format.{length_of, three_reports};
ghost use Rattle.frame.specs.Refusal.{bad_form, too_high, bad_previous, view_missing, misled, first, any, form_rows, link_rows, report_rows, content_rows, leader_rows};
ghost use Rattle.frame.specs.inside.Reading.{present_at};
ghost use Rattle.frame.specs.Numbers.{number_of};
ghost use Rattle.frame.specs.Answers.{number_in};

pub mod numbers;
pub mod reader;
pub mod writer;

// The lengths of frames: with a plan, bare, and with reports.
const PLAN_LENGTH: usize = 14;

const BARE_LENGTH: usize = 6;

const REPORTS_LENGTH: usize = 45;

// Why a call refuses, by the numbers of document 01 and 02.
#[derive(Clone, Copy, Debug, PartialEq, Eq)]
pub enum Refusal {
    Output = 1,
    Blank = 2,
    Unsound = 3,
    Started = 4,
    N = 5,
    F = 6,
    Id = 7,
    Class = 8,
    Kind = 9,
    Length = 10,
    Link = 11,
    Sender = 12,
    ViewZero = 13,
    Report = 14,
    Leader = 15,
    Over = 16,
    Kept = 17,
    Timer = 18,
    LastView = 19,
    Line = 20,
    ReportView = 21,
    Previous = 22,
    Name = 23,
    Records = 24,
    RemnantLength = 25,
    RemnantUnsound = 26,
}

impl From<Refusal> for u8 {
    ghost from_gives = { λ why number. number ≡ number_of why };

    fn from(why: Refusal) -> u8 {
        why as u8
    }
}

// A report of one vote: mark 1 is present; mark 0 is absent, with view and plan 0. No option stands for it: any mark is read, and `bad_form` tells a bad one.
#[derive(Clone, Copy)]
pub struct Report {
    pub mark: u8,
    pub view: u32,
    pub plan: u64,
}

// A report that is present.
pub fn present(view: u32, plan: u64) -> Report
    ensures { result ≡ present_at view plan }
{
    Report {
        mark: numbers::PRESENT,
        view,
        plan,
    }
}

// The three reports of a suggest (highest vote-2, previous vote-2, highest vote-3) or a proof (highest vote-1,
// previous vote-1, highest vote-4).
#[derive(Clone, Copy)]
pub struct Reports {
    pub highest: Report,
    pub previous: Report,
    pub lock: Report,
}

// What follows the head: a plan in kinds 1 to 5, nothing in kind 6, reports in kinds 7 and 8.
#[derive(Clone, Copy)]
pub enum Body {
    Plan(u64),
    Empty,
    Told(Reports),
}

#[derive(Clone, Copy)]
pub struct Frame {
    pub kind: u8,
    pub sender: u8,
    pub view: u32,
    pub body: Body,
}

// The length of the frames of a kind, 0 where there is no such kind: so `length_of` in specs/Format, by which row 10 goes.
pub fn length_of(kind: u8) -> usize
    ensures { result ≡ length_of kind }
{
    match kind {
        numbers::PROPOSAL..=numbers::VOTE_4 => PLAN_LENGTH,
        numbers::VIEW_CHANGE => BARE_LENGTH,
        numbers::SUGGEST..=numbers::PROOF => REPORTS_LENGTH,
        _ => 0,
    }
}

// Refusals 9 and 10, of bytes alone.
pub fn form_refusal(s: &[u8]) -> Result<(), Refusal>
    ensures { number_in result ≡ first (form_rows s.now) }
{
    if s.len() == 0 {
        return Err(Refusal::Kind);
    }
    let size = length_of(s[0]);
    if size == 0 {
        return Err(Refusal::Kind);
    }
    if s.len() != size {
        return Err(Refusal::Length);
    }
    Ok(())
}

// Refusals 11 and 12, of the sender byte and the link.
pub fn link_refusal(sender: u8, link: u8, n: u8, own: u8) -> Result<(), Refusal>
    ensures { number_in result ≡ first (link_rows sender link n own) }
{
    if n <= link {
        return Err(Refusal::Link);
    }
    if link == own {
        return Err(Refusal::Link);
    }
    if sender != link {
        return Err(Refusal::Sender);
    }
    Ok(())
}

// A report's form is bad: a mark that is neither 0 nor 1, or an absent report with a byte that is not 0.
pub fn bad_form(r: Report) -> bool
    ensures { result ≡ bad_form r }
{
    if r.mark == numbers::PRESENT {
        return false;
    }
    if r.mark != 0 {
        return true;
    }
    if r.view != 0 {
        return true;
    }
    r.plan != 0
}

// A report that is present has a view at or above the frame's.
pub fn too_high(view: u32, r: Report) -> bool
    ensures { result ≡ too_high view r }
{
    if r.mark != numbers::PRESENT {
        return false;
    }
    view <= r.view
}

// Refusal 22: a previous vote without highest, not below it, or for its plan.
pub fn bad_previous(highest: Report, previous: Report) -> bool
    ensures { result ≡ bad_previous highest previous }
{
    if previous.mark != numbers::PRESENT {
        return false;
    }
    if highest.mark != numbers::PRESENT {
        return true;
    }
    if highest.view <= previous.view {
        return true;
    }
    highest.plan == previous.plan
}

fn any_of(a: bool, b: bool, c: bool) -> bool
    ensures { result ≡ (a || (b || (c || false))) }
{
    if a {
        return true;
    }
    if b {
        return true;
    }
    c
}

// Refusal 14, of any of the three reports.
pub fn any_bad_form(r: Reports) -> bool
    ensures { result ≡ any bad_form (three_reports r) }
{
    let highest = r.highest;
    let previous = r.previous;
    let lock = r.lock;
    any_of(bad_form(highest), bad_form(previous), bad_form(lock))
}

// Refusal 21, of any of the three reports.
pub fn any_too_high(view: u32, r: Reports) -> bool
    ensures { result ≡ any (too_high view) (three_reports r) }
{
    let highest = r.highest;
    let previous = r.previous;
    let lock = r.lock;
    any_of(
        too_high(view, highest),
        too_high(view, previous),
        too_high(view, lock),
    )
}

// Refusals 14, 21 and 22 of three reports: all are tested for their form, then all for their view, then previous against highest.
fn reports_refusal(view: u32, r: Reports) -> Result<(), Refusal>
    ensures { number_in result ≡ first (report_rows view (three_reports r)) }
{
    let form = any_bad_form(r);
    let high = any_too_high(view, r);
    let at_odds = bad_previous(r.highest, r.previous);
    if form {
        return Err(Refusal::Report);
    }
    if high {
        return Err(Refusal::ReportView);
    }
    if at_odds {
        return Err(Refusal::Previous);
    }
    Ok(())
}

fn view_missing(kind: u8, view: u32) -> bool
    ensures { result ≡ view_missing kind view }
{
    match kind {
        numbers::VIEW_CHANGE..=numbers::PROOF => view == 0,
        _ => false,
    }
}

// Refusals 13, 14, 21 and 22, of a frame alone.
pub fn content_refusal(f: Frame) -> Result<(), Refusal>
    ensures { number_in result ≡ first (content_rows f) }
{
    if view_missing(f.kind, f.view) {
        return Err(Refusal::ViewZero);
    }
    let body = f.body;
    match body {
        Body::Plan(_) | Body::Empty => Ok(()),
        Body::Told(r) => reports_refusal(f.view, r),
    }
}

fn led_wrong(kind: u8, sender: u8, view: u32, n: u8, own: u8) -> bool
    requires { 0 < n }
    ensures { result ≡ misled kind sender view n own }
{
    match kind {
        numbers::PROPOSAL => view % (n as u32) != (sender as u32),
        numbers::SUGGEST => view % (n as u32) != (own as u32),
        _ => false,
    }
}

// Refusal 15, of a frame at vault own of n.
pub fn leader_refusal(f: Frame, n: u8, own: u8) -> Result<(), Refusal>
    requires { 0 < n }
    ensures { number_in result ≡ first (leader_rows f n own) }
{
    if led_wrong(f.kind, f.sender, f.view, n, own) {
        return Err(Refusal::Leader);
    }
    Ok(())
}

// Refusals 13, 14, 21, 22 and 15, of a frame at vault own of n.
pub fn frame_refusal(f: Frame, n: u8, own: u8) -> Result<(), Refusal>
    requires { 0 < n }
    ensures { number_in result ≡ first (content_rows f ++ leader_rows f n own) }
{
    content_refusal(f)?;
    leader_refusal(f, n, own)
}
