// Which version of each API group a guest speaks: set version and get version.
#![tactic(auto)]

ghost use Rattle.std.specs.Prelude.{◌≡◌, List, ℕ, Some};
ghost use Rattle.rules.specs.declared.Tsbs.{Tsbs};
ghost use Rattle.rules.specs.Rulings.{outcome_of};
ghost use Rattle.rules.specs.Versions.{group_of, newest, major_of, with_major, negotiated, set_version, get_version};
ghost use Rattle.plants.specs.Changes.{changed_by};
ghost use Rattle.plants.specs.Done.{quietly, saying};

use plants::{Change, Done, done_by, told};
use rules::{Answer, Group, Plant, Refusal, Versions};

// Groups 0, 1, 2 and 0x200.
#[tactic(auto, unfolding(rules::specs::Versions::group_of))]
fn group_of(n: u64) -> Option<Group>
    ensures { result ≡ group_of n }
{
    match n {
        0 => Some(Group::Sun4v),
        1 => Some(Group::Core),
        2 => Some(Group::Interrupt),
        0x200 => Some(Group::Statistics),
        _ => None,
    }
}

// The newest major number that a group has.
fn newest_of(group: Group) -> u8
    ensures { result ≡ newest (Some group) }
{
    match group {
        Group::Sun4v | Group::Core | Group::Statistics => 1,
        Group::Interrupt => 2,
    }
}

// The major that is set, or 0.
fn major_of(v: Versions, group: Group) -> u8
    ensures { result ≡ major_of v (Some group) }
{
    match group {
        Group::Sun4v => v.sun4v,
        Group::Core => v.core,
        Group::Interrupt => v.interrupt,
        Group::Statistics => v.statistics,
    }
}

fn with_major(v: Versions, group: Group, major: u8) -> Versions
    ensures { result ≡ with_major v (Some group) major }
{
    match group {
        Group::Sun4v => Versions { sun4v: major, ..v },
        Group::Core => Versions { core: major, ..v },
        Group::Interrupt => Versions {
            interrupt: major,
            ..v
        },
        Group::Statistics => Versions {
            statistics: major,
            ..v
        },
    }
}

// What setting the version changes: going to 2.0 disables every source, repeating a version changes nothing.
#[tactic(auto, unfolding(rules::specs::Versions::negotiated, plants::specs::Changes::changed_by))]
fn negotiate(plant: Plant, group: Group, major: u8) -> Change
    ensures { (tsbs : Tsbs) (tails : List ℕ) → changed_by plant tsbs tails result ≡ negotiated plant (Some group) major }
{
    let before = major_of(plant.versions, group);
    let versions = with_major(plant.versions, group, major);
    if before < major && major == 2 {
        Change::Disabled(versions)
    } else {
        Change::Versions(versions)
    }
}

// A group's version is set. The minor is always 0.
#[tactic(auto, using(plants::proofs::OutcomeLaws::outcomes, plants::proofs::OutcomeLaws::change_done), unfolding(rules::specs::Versions::set_version))]
pub fn set_version(plant: Plant, group: u64, major: u64) -> Done
    ensures { quietly plant result ≡ outcome_of plant (set_version plant group major) }
{
    let Some(group) = group_of(group) else {
        return told(Answer::Refused(Refusal::EINVAL));
    };
    if major == 0 || u64::from(newest_of(group)) < major {
        return told(Answer::Refused(Refusal::ENOTSUPPORTED));
    }
    if major < u64::from(major_of(plant.versions, group)) {
        return told(Answer::Refused(Refusal::ENOTSUPPORTED));
    }
    done_by(Answer::One(0), negotiate(plant, group, major as u8))
}

// A group's major and minor, where a version is set.
#[tactic(auto, unfolding(rules::specs::Versions::get_version))]
pub fn get_version(plant: Plant, group: u64) -> Answer
    ensures { saying plant result ≡ outcome_of plant (get_version plant group) }
{
    let Some(group) = group_of(group) else {
        return Answer::Refused(Refusal::EINVAL);
    };
    match major_of(plant.versions, group) {
        0 => Answer::Refused(Refusal::EINVAL),
        major => Answer::Two(u64::from(major), 0),
    }
}
