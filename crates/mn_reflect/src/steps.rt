//! One call for each step.
ghost use Rattle.std.specs.Prelude.{◌≡◌, ◌≤◌, ◌+◌, ◌++◌, ◌∷◌, ℕ, List, [], Option, None, Err, true, false, IfSome, IfErr, OnOk, IsErrOf};
ghost use Rattle.mn_ledger.specs.Prelude.{most_steps, Network};
ghost use Rattle.mn_topo.specs.declared.steps.Step.{Step as StepOf};
ghost use Rattle.mn_reflect.specs.Prelude.{world_of, refusal, takes, Labels, Word};
ghost use Rattle.mn_reflect.specs.Course.{IsRun, MayStep, bad_of};
ghost use Rattle.mn_reflect.specs.Acting.{MayAct, IsHeardIn, acted, counted};

use crate::reflect::Reflect;
use crate::refusal::ReflectBad;
use mn_topo::Step;
use std::alloc::AllocError;

/// The count with one step more.
fn next_count(done: u64) -> u64
    requires { done ≤ most_steps }
    ensures { result ≡ done + 1 }
{
    done + 1
}

impl<'t> Reflect<'t> {
    /// Does a step of a session of two nodes that may have one, or of an edge: `BgpUp`, `BgpDown` (the lesser number first), `HearBgp`,
    /// `AddRoute`, `DelRoute`, `Import`, `Export`, `Attach` or `Detach`.
    ///
    /// It refuses, in this order: `Unchanged`, `Empty`, `PrefixTaken`, `NoRouteThere`, `RoutesFull`, `TargetsFull`, `LabelsSpent`,
    /// `NetFull`. A refusal changes nothing. After `NoMemory` each later step is answered so.
    pub fn step(&mut self, step: &Step) -> Result<(), ReflectBad>
        requires may { self.old.failed ≡ false → MayStep self.old step.now }
        ensures refused { (topology : Network) (reflectors : List ℕ) (steps : List StepOf) → IsRun topology reflectors steps self.old →
            takes topology reflectors step.now ≡ true →
            IfSome (refusal topology (world_of topology reflectors steps) step.now) (λ why. (result ≡ Err (bad_of why)) × (self.new ≡ self.old)) }
        ensures done { (topology : Network) (reflectors : List ℕ) (steps : List StepOf) → IsRun topology reflectors steps self.old →
            takes topology reflectors step.now ≡ true → OnOk result (IsRun topology reflectors (steps ++ step.now ∷ []) self.new) }
        ensures else_memory { (topology : Network) (reflectors : List ℕ) (steps : List StepOf) → IsRun topology reflectors steps self.old →
            takes topology reflectors step.now ≡ true → refusal topology (world_of topology reflectors steps) step.now ≡ None →
            IfErr result (λ bad. bad ≡ ReflectBad.NoMemory) }
        ensures failed { IsErrOf result ReflectBad.NoMemory → self.new.failed ≡ true }
        ensures for_good { self.old.failed ≡ true → (result ≡ Err ReflectBad.NoMemory) × (self.new ≡ self.old) }
    {
        if self.failed {
            return Err(ReflectBad::NoMemory);
        }
        match self.refusal(step) {
            Some(cause) => Err(cause),
            None => self.act_counted(step),
        }
    }

    /// Does a step that nothing refuses, and counts it.
    fn act_counted(&mut self, step: &Step) -> Result<(), ReflectBad>
        requires may { MayAct self.old step.now }
        requires few { self.old.done ≤ most_steps }
        requires works { self.old.failed ≡ false }
        ensures done { (labels : Labels) (word : Option Word) → IsHeardIn labels self.old step.now word →
            OnOk result (self.new ≡ counted (acted labels word step.now self.old)) }
        ensures memory { IfErr result (λ bad. (bad ≡ ReflectBad.NoMemory) × (self.new.failed ≡ true)) }
    {
        match self.act(step) {
            Ok(()) => {
                self.done = next_count(self.done);
                Ok(())
            }
            Err(_) => {
                self.failed = true;
                Err(ReflectBad::NoMemory)
            }
        }
    }

    /// Does a step that nothing refuses.
    fn act(&mut self, step: &Step) -> Result<(), AllocError>
        requires { MayAct self.old step.now }
        ensures { (labels : Labels) (word : Option Word) → IsHeardIn labels self.old step.now word →
            OnOk result (self.new ≡ acted labels word step.now self.old) }
    {
        match *step {
            Step::BgpUp(a, b) => self.begin(a, b),
            Step::BgpDown(a, b) => self.end(a, b),
            Step::HearBgp(a, b) => self.hear_next(a, b),
            Step::AddRoute(site, prefix) => self.add(site, prefix),
            Step::DelRoute(site, prefix) => self.del(site, prefix),
            Step::Import(vrf, on, target) => self.set_import(vrf, target, on),
            Step::Export(vrf, on, target) => self.set_export(vrf, target, on),
            Step::Attach(site) => self.attach(site),
            Step::Detach(site) => self.detach(site),
            _ => Ok(()),
        }
    }
}
