// Which calls exist. The function number picks the group before any argument is read.
ghost use Rattle.std.specs.Prelude.{◌≡◌, ◌≤◌, Some};
ghost use Rattle.rules.specs.Calls.{version_function, fast_function, function_of, admitted};
ghost use Rattle.records.specs.Verdict.{verdict_of};
ghost use Rattle.calls.specs.Open.{group_open, sysino_open, cookie_open};

use rules::{CookieCall, Function, Refusal, SourceCall, Versions};

#[tactic(auto, unfolding(rules::specs::Calls::version_function))]
fn version_function(function: u64) -> Option<Function>
    ensures { result ≡ version_function function }
{
    match function {
        0 => Some(Function::SetVersion),
        3 => Some(Function::GetVersion),
        _ => None,
    }
}

// 0xa0 to 0xa6.
#[tactic(auto, unfolding(rules::specs::Calls::fast_function))]
fn sysino_function(function: u64) -> Function
    requires { (0xa0 ≤ function) × (function ≤ 0xa6) }
    ensures { Some result ≡ fast_function function }
{
    match function {
        0xa0 => Function::IntrDevino2sysino,
        0xa1 => Function::Sysino(SourceCall::GetEnabled),
        0xa2 => Function::Sysino(SourceCall::SetEnabled),
        0xa3 => Function::Sysino(SourceCall::GetState),
        0xa4 => Function::Sysino(SourceCall::SetState),
        0xa5 => Function::Sysino(SourceCall::GetTarget),
        _ => Function::Sysino(SourceCall::SetTarget),
    }
}

// 0xa7 to 0xae.
#[tactic(auto, unfolding(rules::specs::Calls::fast_function))]
fn cookie_function(function: u64) -> Function
    requires { (0xa7 ≤ function) × (function ≤ 0xae) }
    ensures { Some result ≡ fast_function function }
{
    match function {
        0xa7 => Function::Cookie(CookieCall::GetCookie),
        0xa8 => Function::Cookie(CookieCall::SetCookie),
        0xa9 => Function::Cookie(CookieCall::Source(SourceCall::GetEnabled)),
        0xaa => Function::Cookie(CookieCall::Source(SourceCall::SetEnabled)),
        0xab => Function::Cookie(CookieCall::Source(SourceCall::GetState)),
        0xac => Function::Cookie(CookieCall::Source(SourceCall::SetState)),
        0xad => Function::Cookie(CookieCall::Source(SourceCall::GetTarget)),
        _ => Function::Cookie(CookieCall::Source(SourceCall::SetTarget)),
    }
}

#[tactic(auto, unfolding(rules::specs::Calls::fast_function))]
fn fast_function(function: u64) -> Option<Function>
    ensures { result ≡ fast_function function }
{
    match function {
        0x14 => Some(Function::CpuQconf),
        0x15 => Some(Function::CpuQinfo),
        0x16 => Some(Function::CpuMyid),
        0x20 => Some(Function::MmuTsbCtx0),
        0x21 => Some(Function::MmuTsbCtxnon0),
        0x31 => Some(Function::MemScrub),
        0x32 => Some(Function::MemSync),
        0x42 => Some(Function::CpuMondoSend),
        0xa0..=0xa6 => Some(sysino_function(function)),
        0xa7..=0xae => Some(cookie_function(function)),
        0x102 => Some(Function::MmustatConf),
        0x103 => Some(Function::MmustatInfo),
        _ => None,
    }
}

#[tactic(auto, unfolding(rules::specs::Calls::function_of))]
pub(crate) fn function_of(trap: u64, function: u64) -> Option<Function>
    ensures { result ≡ function_of trap function }
{
    match trap {
        0xff => version_function(function),
        0x80 => fast_function(function),
        _ => None,
    }
}

// A group at any version.
#[tactic(auto, unfolding(crate::specs::Open::group_open))]
fn group_open(major: u8) -> Result<(), Refusal>
    ensures { result ≡ group_open major }
{
    if major < 1 {
        return Err(Refusal::EBADTRAP);
    }
    Ok(())
}

// Group 2 at 1.0, for 0xa0 to 0xa6. Under 2.0 they are there no more.
#[tactic(auto, unfolding(crate::specs::Open::sysino_open))]
fn sysino_open(major: u8) -> Result<(), Refusal>
    ensures { result ≡ sysino_open major }
{
    if major < 1 {
        return Err(Refusal::EBADTRAP);
    }
    if major != 1 {
        return Err(Refusal::ENOTSUPPORTED);
    }
    Ok(())
}

// Group 2 at 2.0, for 0xa7 to 0xae.
#[tactic(auto, unfolding(crate::specs::Open::cookie_open))]
fn cookie_open(major: u8) -> Result<(), Refusal>
    ensures { result ≡ cookie_open major }
{
    if major != 2 {
        return Err(Refusal::EBADTRAP);
    }
    Ok(())
}

// Whether a function may be called under the negotiated versions. No argument of the call is looked at.
#[tactic(auto, unfolding(rules::specs::Calls::admitted, records::specs::Verdict::verdict_of, crate::specs::Open::group_open, crate::specs::Open::sysino_open, crate::specs::Open::cookie_open))]
pub(crate) fn admission(v: Versions, f: Function) -> Result<(), Refusal>
    ensures { result ≡ verdict_of (admitted v (Some f)) }
{
    match f {
        Function::SetVersion | Function::GetVersion => Ok(()),
        Function::CpuQconf
        | Function::CpuQinfo
        | Function::CpuMyid
        | Function::CpuMondoSend
        | Function::MmuTsbCtx0
        | Function::MmuTsbCtxnon0
        | Function::MemScrub
        | Function::MemSync => group_open(v.core),
        Function::MmustatConf | Function::MmustatInfo => group_open(v.statistics),
        Function::IntrDevino2sysino | Function::Sysino(_) => sysino_open(v.interrupt),
        Function::Cookie(_) => cookie_open(v.interrupt),
    }
}
