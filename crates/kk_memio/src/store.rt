ghost use Rattle.std.specs.Prelude.{◌≡◌, ℕ, List, Some, None, option_map, IfOk, OnOk, OnErr};
ghost use Rattle.kk_base.specs.Faults.{Counts};
ghost use Rattle.kk_base.specs.Store.{read_failed, wrote_failed, ReadsFile, SameFiles, SameOthers, HasFile, WritesFile, Remembers};
ghost use Rattle.kk_base.specs.declared.outside.StoreCall.TheVariants.{Reading, Writing};
ghost use Rattle.kk_memio.specs.Plan.{unused, is_planned, after_call};
ghost use Rattle.kk_memio.specs.Store.{files_of, plan_of_store, store_state, ReadsAsPlanned, WritesAsPlanned};

use crate::fault_plan::FaultPlan;
use kk_base::{Bytes, Name, NoMemory, Read, Store, StoreCall, Wrote};
use std::alloc::Global;
use std::collections::BTreeMap;

/// Files in memory. A call fails exactly where it is planned, and a read also where there is no file of the name.
#[derive(Drop)]
pub struct MemStore {
    alloc: Global,
    files: BTreeMap<String, Bytes>,
    plan: FaultPlan,
    last_failed: Option<StoreCall>,
}

impl MemStore {
    /// A store with no files. `fails` lists the numbers, from 1, of the calls that are to fail, reads and writes
    /// counted together.
    pub fn new(alloc: Global, fails: &[u64]) -> Result<Self, NoMemory>
        ensures files { IfOk result (λ store. (name : List ℕ) → files_of store name ≡ None) }
        ensures plan { IfOk result (λ store. plan_of_store store ≡ unused fails.now) }
        ensures last_failed { IfOk result (λ store. store.last_failed ≡ None) }
    {
        Ok(MemStore {
            alloc,
            files: BTreeMap::new(alloc),
            plan: FaultPlan::new(alloc, fails)?,
            last_failed: None,
        })
    }

    /// Puts a file in, in place of one of that name. It counts as no call.
    #[tactic(auto, using(std::proofs::lemmas::Map::Text::text_keys))]
    pub fn add_file(&mut self, name: &str, bytes: &[u8]) -> Result<(), NoMemory>
        ensures ok { OnOk result (HasFile name.now bytes.now (Some (files_of self.new)) × SameOthers name.now (Some (files_of self.old)) (Some (files_of self.new))) }
        ensures err { OnErr result (SameFiles (Some (files_of self.old)) (Some (files_of self.new))) }
        ensures plan { plan_of_store self.new ≡ plan_of_store self.old }
        ensures last_failed { self.new.last_failed ≡ self.old.last_failed }
    {
        let content = Bytes::from_slice(self.alloc, bytes)?;
        let key = String::from_str(self.alloc, name)?;
        self.files.insert(key, content)?;
        Ok(())
    }

    /// The bytes of a file, if there is one of that name. It counts as no call.
    pub fn file_bytes(&self, name: &str) -> Option<&[u8]>
        ensures { option_map (λ bytes. bytes.now) result ≡ files_of self.now name.now }
    {
        match self.files.get(name) {
            Some(bytes) => Some(bytes.as_slice()),
            None => None,
        }
    }
}

impl Store for MemStore {
    ghost use Rattle.kk_memio.specs.Store.{store_state};

    ghost state = { store_state };

    fn read(&mut self, alloc: Global, name: &str, at_most: usize) -> Read
        ensures content { ReadsFile result at_most name.now (store_state self.old).files }
        ensures kept { SameFiles (store_state self.old).files (store_state self.new).files }
        ensures faults { Counts (read_failed result) (store_state self.old).faults (store_state self.new).faults }
        ensures named { Remembers (read_failed result) (Reading name.now) (store_state self.old).last_failed (store_state self.new).last_failed }
        ensures planned { ReadsAsPlanned (is_planned (plan_of_store self.old)) result name.now (files_of self.old) }
        ensures counted { plan_of_store self.new ≡ after_call (read_failed result) (plan_of_store self.old) }
    {
        let planned = self.plan.is_next_planned();
        match self.files.get(name) {
            Some(bytes) if !planned => {
                let bytes = bytes.as_slice();
                let read = Bytes::from_slice(alloc, &bytes[..at_most.min(bytes.len())]);
                self.plan.count_call(false);
                match read {
                    Ok(bytes) => Read::Bytes(bytes),
                    Err(NoMemory) => Read::NoMemory,
                }
            }
            _ => match String::from_str(self.alloc, name) {
                Ok(name) => {
                    self.last_failed = Some(StoreCall::Reading(Name::new(name)));
                    self.plan.count_call(true);
                    Read::Failed
                }
                Err(_) => {
                    self.plan.count_call(false);
                    Read::NoMemory
                }
            },
        }
    }

    fn write(&mut self, name: &str, bytes: &[u8]) -> Wrote
        ensures content { WritesFile result name.now bytes.now (store_state self.old).files (store_state self.new).files }
        ensures faults { Counts (wrote_failed result) (store_state self.old).faults (store_state self.new).faults }
        ensures named { Remembers (wrote_failed result) (Writing name.now) (store_state self.old).last_failed (store_state self.new).last_failed }
        ensures planned { WritesAsPlanned (is_planned (plan_of_store self.old)) result (files_of self.old) (files_of self.new) }
        ensures counted { plan_of_store self.new ≡ after_call (wrote_failed result) (plan_of_store self.old) }
    {
        if self.plan.is_next_planned() {
            match String::from_str(self.alloc, name) {
                Ok(name) => {
                    self.last_failed = Some(StoreCall::Writing(Name::new(name)));
                    self.plan.count_call(true);
                    Wrote::Failed
                }
                Err(_) => {
                    self.plan.count_call(false);
                    Wrote::NoMemory
                }
            }
        } else {
            self.plan.count_call(false);
            match self.add_file(name, bytes) {
                Ok(()) => Wrote::Done,
                Err(NoMemory) => Wrote::NoMemory,
            }
        }
    }
}
