// From a trap and a function number to the call. The numbers and the negotiated versions decide first; the arguments are looked
// at by the call alone.
ghost use Rattle.std.specs.Prelude.{◌≡◌, ◌<◌, length};
ghost use Rattle.rules.specs.Kept.{cpu_at};
ghost use Rattle.rules.specs.Real.{sight_of};
ghost use Rattle.rules.specs.Calls.{perform, call};
ghost use Rattle.memory.specs.Ready.{present};
ghost use Rattle.records.specs.Sound.{Sound};
ghost use Rattle.plants.specs.Follows.{Follows};

use crate::functions::{admission, function_of};
use mmu::{mmu_tsb_ctx0, mmu_tsb_ctxnon0, mmustat_conf, mmustat_info};
use mondo::cpu_mondo_send;
use plants::{Done, told};
use queues::{cpu_myid, cpu_qconf, cpu_qinfo};
use rules::{Answer, Call, Cpu, Extents, Function, Plant, Refusal};
use sources::{intr, intr_devino2sysino, vintr};
use versions::{get_version, set_version};
use words::{mem_scrub, mem_sync};

#[tactic(auto, using(plants::proofs::OutcomeLaws::quiet), unfolding(rules::specs::Calls::perform))]
fn perform(extents: Extents, plant: Plant, own: Cpu, mem: &mut [u8], c: Call, f: Function) -> Done
    requires sound { Sound extents plant (length mem.old) }
    requires cpu_lt_cpus { c.cpu < plant.cpus }
    requires own_value { own ≡ cpu_at plant c.cpu }
    ensures { Follows extents plant (perform (sight_of (present extents) mem.old) plant c f)
        mem.old result mem.new }
{
    let cpu = c.cpu as usize;
    match f {
        Function::SetVersion => set_version(plant, c.arg0, c.arg1),
        Function::GetVersion => told(get_version(plant, c.arg0)),
        Function::CpuQconf => cpu_qconf(extents, plant, cpu, c.arg0, c.arg1, c.arg2),
        Function::CpuQinfo => told(cpu_qinfo(own, c.arg0)),
        Function::CpuMyid => told(cpu_myid(cpu)),
        Function::CpuMondoSend => cpu_mondo_send(extents, plant, mem, cpu, c.arg0, c.arg1, c.arg2),
        Function::MmuTsbCtx0 => mmu_tsb_ctx0(extents, mem, cpu, c.arg0, c.arg1),
        Function::MmuTsbCtxnon0 => mmu_tsb_ctxnon0(extents, mem, cpu, c.arg0, c.arg1),
        Function::MemScrub => mem_scrub(extents, mem, c.arg0, c.arg1),
        Function::MemSync => mem_sync(extents, c.arg0, c.arg1),
        Function::MmustatConf => mmustat_conf(extents, own, cpu, c.arg0),
        Function::MmustatInfo => told(mmustat_info(own)),
        Function::IntrDevino2sysino => told(intr_devino2sysino(plant, c.arg0, c.arg1)),
        Function::Sysino(asked) => intr(plant, asked, c.arg0, c.arg1),
        Function::Cookie(asked) => vintr(plant, asked, c.arg0, c.arg1, c.arg2),
    }
}

pub(crate) fn call(extents: Extents, plant: Plant, own: Cpu, mem: &mut [u8], c: Call) -> Done
    requires sound { Sound extents plant (length mem.old) }
    requires cpu_lt_cpus { c.cpu < plant.cpus }
    requires own_value { own ≡ cpu_at plant c.cpu }
    ensures { Follows extents plant (call (sight_of (present extents) mem.old) plant c)
        mem.old result mem.new }
{
    let Some(f) = function_of(c.trap, c.function) else {
        return told(Answer::Refused(Refusal::EBADTRAP));
    };
    match admission(plant.versions, f) {
        Ok(()) => perform(extents, plant, own, mem, c, f),
        Err(r) => told(Answer::Refused(r)),
    }
}
