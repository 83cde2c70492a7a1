// Interrupt sources: 0xa0 to 0xae.
#![tactic(auto)]

ghost use Rattle.std.specs.Prelude.{◌≡◌, ℕ, ◌≤◌, ◌<◌, get_or};
ghost use Rattle.std.specs.List.{position};
ghost use Rattle.rules.specs.Limits.{source_limit};
ghost use Rattle.rules.specs.declared.Plant.{Plant as PlantRecord};
ghost use Rattle.rules.specs.Image.{named};
ghost use Rattle.rules.specs.Kept.{blank_source, source_at};
ghost use Rattle.rules.specs.Scan.{first_below};
ghost use Rattle.rules.specs.Rulings.{outcome_of};
ghost use Rattle.rules.specs.Sources.{set_enabled, set_state, set_target, set_cookie};
ghost use Rattle.rules.specs.Sources.{sysino_of, intr_devino2sysino, source_call, cookie_call, intr, vintr};
ghost use Rattle.plants.specs.Done.{quietly, saying};
ghost use Rattle.sources.specs.Seen.{named_in, Shows, set_to};

use plants::{Change, Done, done_by, told};
use rules::{Answer, CookieCall, Plant, Refusal, SOURCES, Source, SourceCall};

fn is_named(s: Source, devhandle: u64, devino: u64) -> bool
    ensures { result ≡ named s devhandle devino }
{
    u64::from(s.devhandle) == devhandle && u64::from(s.devino) == devino
}

// The position of the first source of that name.
fn position_of(list: &[Source], devhandle: u64, devino: u64) -> Option<usize>
    ensures { result ≡ position (λ s. named s devhandle devino) list.now }
{
    list.iter().position(|s| is_named(*s, devhandle, devino))
}

// The same among the places of a guest's own list; what lies past the end of the list is not looked at.
fn place_of(list: &[Source; SOURCES], count: u8, devhandle: u64, devino: u64) -> Option<usize>
    requires { count ≤ source_limit }
    ensures { result ≡ first_below count (λ i. named (get_or list.now i blank_source) devhandle devino) }
{
    position_of(&list[..usize::from(count)], devhandle, devino)
}

// A source's position in the guest's own list.
#[tactic(auto, unfolding(rules::specs::Sources::sysino_of))]
pub fn sysino_of(plant: Plant, devhandle: u64, devino: u64) -> Option<usize>
    requires { plant.sources ≤ source_limit }
    ensures { result ≡ sysino_of plant devhandle devino }
{
    let source = plant.source;
    place_of(&source, plant.sources, devhandle, devino)
}

// The same with the source's record, out of the list that was gone over: another local would copy all of it once more.
#[tactic(auto, using(rules::proofs::Scan::first_below_lem), unfolding(rules::specs::Sources::sysino_of, crate::specs::Seen::named_as))]
pub fn source_named(plant: Plant, devhandle: u64, devino: u64) -> Option<(usize, Source)>
    requires { plant.sources ≤ source_limit }
    ensures { result ≡ named_in plant devhandle devino }
{
    let source = plant.source;
    let i = place_of(&source, plant.sources, devhandle, devino)?;
    Some((i, source[i]))
}

// Enabling a source without a cookie is not allowed under 2.0.
#[tactic(auto, unfolding(rules::specs::Sources::set_enabled, crate::specs::Seen::set_to))]
fn set_enabled(version: u8, source: Source, value: u64) -> Result<Source, Refusal>
    ensures { (plant : PlantRecord) (i : ℕ) → version ≡ plant.versions.interrupt → source ≡ source_at plant i →
        set_enabled plant i value ≡ set_to plant i result }
{
    if 1 < value {
        return Err(Refusal::EINVAL);
    }
    if value == 1 && version == 2 && source.cookie == 0 {
        return Err(Refusal::EINVAL);
    }
    Ok(Source {
        enabled: value as u8,
        ..source
    })
}

#[tactic(auto, unfolding(rules::specs::Sources::set_state, crate::specs::Seen::set_to))]
fn set_state(source: Source, value: u64) -> Result<Source, Refusal>
    ensures { (plant : PlantRecord) (i : ℕ) → source ≡ source_at plant i → set_state plant i value ≡ set_to plant i result }
{
    if 2 < value {
        return Err(Refusal::EINVAL);
    }
    Ok(Source {
        state: value as u8,
        ..source
    })
}

// The cpu has to be one of the guest's own.
#[tactic(auto, unfolding(rules::specs::Sources::set_target, crate::specs::Seen::set_to))]
fn set_target(cpus: u8, source: Source, value: u64) -> Result<Source, Refusal>
    ensures { (plant : PlantRecord) (i : ℕ) → cpus ≡ plant.cpus → source ≡ source_at plant i → set_target plant i value ≡ set_to plant i result }
{
    if u64::from(cpus) <= value {
        return Err(Refusal::ENOCPU);
    }
    Ok(Source {
        target: value as u8,
        ..source
    })
}

// Cookie 0 disables; 1 to 2,047 are no cookies.
#[tactic(auto, unfolding(rules::specs::Sources::set_cookie, crate::specs::Seen::set_to))]
fn set_cookie(source: Source, value: u64) -> Result<Source, Refusal>
    ensures { (plant : PlantRecord) (i : ℕ) → source ≡ source_at plant i → set_cookie plant i value ≡ set_to plant i result }
{
    match value {
        0 => Ok(Source {
            cookie: 0,
            enabled: 0,
            ..source
        }),
        1..=2047 => Err(Refusal::EINVAL),
        _ => Ok(Source {
            cookie: value,
            ..source
        }),
    }
}

// Source i as a setting left it, or the refusal.
#[tactic(auto, using(plants::proofs::OutcomeLaws::outcomes), unfolding(crate::specs::Seen::set_to))]
fn set_done(i: usize, after: Result<Source, Refusal>) -> Done
    requires { i < source_limit }
    ensures { (plant : PlantRecord) → quietly plant result ≡ outcome_of plant (set_to plant i after) }
{
    match after {
        Ok(source) => done_by(Answer::Done, Change::Source(i, source)),
        Err(r) => told(Answer::Refused(r)),
    }
}

// 0xa0: the sysino of a source.
#[tactic(auto, unfolding(rules::specs::Sources::intr_devino2sysino))]
pub fn intr_devino2sysino(plant: Plant, devhandle: u64, devino: u64) -> Answer
    requires { plant.sources ≤ source_limit }
    ensures { saying plant result ≡ outcome_of plant (intr_devino2sysino plant devhandle devino) }
{
    match sysino_of(plant, devhandle, devino) {
        None => Answer::Refused(Refusal::EINVAL),
        Some(i) => Answer::One(i as u64),
    }
}

// What a call asks of source i, of any plant that shows this of it.
#[tactic(auto, using(plants::proofs::OutcomeLaws::outcomes), unfolding(rules::specs::Sources::source_call, rules::specs::Sources::get_enabled, rules::specs::Sources::get_state, rules::specs::Sources::get_target))]
fn source_call(version: u8, cpus: u8, i: usize, s: Source, value: u64, call: SourceCall) -> Done
    requires { i < source_limit }
    ensures { (plant : PlantRecord) → Shows plant version cpus i s →
        quietly plant result ≡ outcome_of plant (source_call plant i value call) }
{
    match call {
        SourceCall::GetEnabled => told(Answer::One(u64::from(s.enabled))),
        SourceCall::SetEnabled => set_done(i, set_enabled(version, s, value)),
        SourceCall::GetState => told(Answer::One(u64::from(s.state))),
        SourceCall::SetState => set_done(i, set_state(s, value)),
        SourceCall::GetTarget => told(Answer::One(u64::from(s.target))),
        SourceCall::SetTarget => set_done(i, set_target(cpus, s, value)),
    }
}

#[tactic(auto, using(plants::proofs::OutcomeLaws::outcomes), unfolding(rules::specs::Sources::cookie_call, rules::specs::Sources::get_cookie))]
fn cookie_call(version: u8, cpus: u8, i: usize, s: Source, value: u64, call: CookieCall) -> Done
    requires { i < source_limit }
    ensures { (plant : PlantRecord) → Shows plant version cpus i s →
        quietly plant result ≡ outcome_of plant (cookie_call plant i value call) }
{
    match call {
        CookieCall::GetCookie => told(Answer::One(s.cookie)),
        CookieCall::SetCookie => set_done(i, set_cookie(s, value)),
        CookieCall::Source(other) => source_call(version, cpus, i, s, value, other),
    }
}

// 0xa1 to 0xa6, by sysino.
#[tactic(auto, using(plants::proofs::OutcomeLaws::outcomes), unfolding(rules::specs::Sources::intr))]
pub fn intr(plant: Plant, call: SourceCall, sysino: u64, value: u64) -> Done
    requires { plant.sources ≤ source_limit }
    ensures { quietly plant result ≡ outcome_of plant (intr plant call sysino value) }
{
    if u64::from(plant.sources) <= sysino {
        return told(Answer::Refused(Refusal::EINVAL));
    }
    let i = sysino as usize;
    let source = plant.source;
    source_call(
        plant.versions.interrupt,
        plant.cpus,
        i,
        source[i],
        value,
        call,
    )
}

// 0xa7 to 0xae, by devhandle and devino.
#[tactic(auto, using(plants::proofs::OutcomeLaws::outcomes), unfolding(rules::specs::Sources::vintr, crate::specs::Seen::named_as))]
pub fn vintr(plant: Plant, call: CookieCall, devhandle: u64, devino: u64, value: u64) -> Done
    requires { plant.sources ≤ source_limit }
    ensures { quietly plant result ≡ outcome_of plant (vintr plant call devhandle devino value) }
{
    let Some((i, s)) = source_named(plant, devhandle, devino) else {
        return told(Answer::Refused(Refusal::EINVAL));
    };
    if !s.cookies {
        return told(Answer::Refused(Refusal::ENOTSUPPORTED));
    }
    cookie_call(plant.versions.interrupt, plant.cpus, i, s, value, call)
}
