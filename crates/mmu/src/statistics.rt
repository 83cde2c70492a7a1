// The statistics address: 0x102 and 0x103; own is the cpu's record, whatever else the plant's is.
ghost use Rattle.std.specs.Prelude.{◌≡◌, ℕ, ◌≤◌, ◌<◌};
ghost use Rattle.rules.specs.Limits.{cpu_limit, extent_limit};
ghost use Rattle.rules.specs.declared.Plant.{Plant as PlantRecord};
ghost use Rattle.rules.specs.Kept.{present, cpu_at};
ghost use Rattle.rules.specs.Real.{valid};
ghost use Rattle.rules.specs.Rulings.{outcome_of};
ghost use Rattle.rules.specs.Memory.{mmustat_conf, mmustat_info};
ghost use Rattle.plants.specs.Done.{quietly, saying};

use plants::{Change, CpuChange, Done, done_by};
use rules::{Answer, Cpu, Extents};

// 0x102: the address is set, and the one before told. A refused address is not kept, and neither is the one before.
pub fn mmustat_conf(extents: Extents, own: Cpu, cpu: usize, address: u64) -> Done
    requires { (extents.extents ≤ extent_limit) × (cpu < cpu_limit) }
    ensures { (plant : PlantRecord) → cpu_at plant cpu ≡ own
        → quietly plant result ≡ outcome_of plant (mmustat_conf (valid (present extents)) plant cpu address) }
{
    match records::judge_statistics(extents, address) {
        Err(r) => done_by(
            Answer::Refused(r),
            Change::Cpu(cpu, CpuChange::Statistics(0)),
        ),
        Ok(()) => done_by(
            Answer::One(own.statistics),
            Change::Cpu(cpu, CpuChange::Statistics(address)),
        ),
    }
}

// 0x103: the address.
#[tactic(auto, unfolding(rules::specs::Memory::mmustat_info))]
pub fn mmustat_info(own: Cpu) -> Answer
    ensures { (plant : PlantRecord) (cpu : ℕ) → cpu_at plant cpu ≡ own → saying plant result ≡ outcome_of plant (mmustat_info plant cpu) }
{
    Answer::One(own.statistics)
}
