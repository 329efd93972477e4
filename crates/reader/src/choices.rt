// What an operator decides between a look and a take: by virtual channel.
ghost use Rattle.std.specs.Prelude.{◌≡◌, false, ◌&&◌, ◌≤◌, get_or};
ghost use Rattle.rules.specs.Settings.{channel};
ghost use Rattle.rules.specs.Promises.{placed};
ghost use Rattle.rules.specs.Tests.{none};
ghost use Rattle.rules.specs.Refusals.{channel_at};
ghost use Rattle.rules.specs.Passes.{left_out, unlisted as unlistedIn};

use rules::{Looked, Setting};

// The number that a place is; 0 where there is none.
pub fn number_of(p: Option<usize>) -> usize
    ensures { result ≡ placed p }
{
    p.unwrap_or(0)
}

// The virtual channel of the channel at place c; 0 where there is none.
fn vc_at(s: Setting, c: usize) -> usize
    ensures { result ≡ (channel s c).vc }
{
    s.channels.get(c).map_or(0, |channel| channel.vc as usize)
}

// Whether virtual channel v is to be left out.
fn is_named(without: [bool; 63], v: usize) -> bool
    ensures { result ≡ get_or without v false }
{
    without.get(v).copied().unwrap_or(false)
}

// Whether virtual channel v is listed with neither service.
fn is_unlisted(s: Setting, v: u8) -> bool
    requires { s.listed ≤ 8 }
    ensures { result ≡ (none (channel_at s v 0) && none (channel_at s v 1)) }
{
    setting::channel_at(s, v, 0).is_none() && setting::channel_at(s, v, 1).is_none()
}

// Whether virtual channel v is to be left out and is not listed.
fn is_stray(without: [bool; 63], s: Setting, v: u8) -> bool
    requires { s.listed ≤ 8 }
    ensures { result ≡ (get_or without v false && (none (channel_at s v 0) && none (channel_at s v 1))) }
{
    is_named(without, v as usize) && is_unlisted(s, v)
}

// The lowest virtual channel that is to be left out and is not listed, if there is one.
pub fn unlisted(without: [bool; 63], s: Setting) -> Option<usize>
    requires { s.listed ≤ 8 }
    ensures { result ≡ unlistedIn without s }
{
    (0..63).position(|v| is_stray(without, s, v))
}

// Whether a frame that a look says this of is to be left out.
#[tactic(auto, unfolding(rules::specs::Passes::left_out))]
pub fn left_out(without: [bool; 63], s: Setting, o: Looked) -> bool
    ensures { result ≡ left_out without s o }
{
    o.channel.is_some_and(|c| is_named(without, vc_at(s, c)))
}
