// A vault's settings: the refusals 5 to 8 of the place 'start', and the delay that the link class gives.
#![tactic(auto)]

ghost use Rattle.std.specs.Prelude.{◌≡◌, ◌*◌};
ghost use Rattle.frame.specs.Refusal.{first};
ghost use Rattle.frame.specs.Answers.{number_in};
ghost use Rattle.settings.specs.Settings.{setting_rows, delay_of};

use frame::Refusal;

// 'n, f, id, class': how many vaults there are, how many of them may break the rules, the vault's own number, its link class.
#[derive(Clone, Copy)]
pub struct Settings {
    pub n: u8,
    pub f: u8,
    pub id: u8,
    pub class: u8,
}

// The delay in milliseconds of each link class, 0 to 7.
const DELAYS: [u32; 8] = [20, 50, 100, 200, 500, 1000, 2000, 5000];

// Refusals 5 to 8 of settings, in their order.
pub fn settings_refusal(s: Settings) -> Result<(), Refusal>
    ensures { number_in result ≡ first (setting_rows s) }
{
    if s.n < 4 {
        return Err(Refusal::N);
    }
    if 64 < s.n {
        return Err(Refusal::N);
    }
    if s.f == 0 {
        return Err(Refusal::F);
    }
    if (s.n as u32) <= 3 * (s.f as u32) {
        return Err(Refusal::F);
    }
    if s.n <= s.id {
        return Err(Refusal::Id);
    }
    if 7 < s.class {
        return Err(Refusal::Class);
    }
    Ok(())
}

// The delay of a link class; 0 for a class above 7, which refusal 8 keeps out of every record: so `delay_of` in specs/Settings.
fn delay(class: u8) -> u32
    ensures { result ≡ delay_of class }
{
    let at = class as usize;
    if at < 8 {
        return DELAYS[at];
    }
    0
}

// A timer of a vault in milliseconds; 0 for a class above 7.
pub fn timer_millis(class: u8) -> u32
    ensures { result ≡ 9 * delay_of class }
{
    9 * delay(class)
}
