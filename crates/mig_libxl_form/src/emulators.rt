ghost use Rattle.std.specs.Prelude.{◌≡◌, ◌≤◌, map, ◌<◌, length, None, OnOk, OnErr, IsErrOf};
ghost use Rattle.std.specs.FinMap as maps;
ghost use Rattle.mig_libxl_form.specs.Common.{put_parts, most_pairs, pairs_fault, pairs_in, put_pairs, text_of_map};
ghost use Rattle.mig_policy.specs.declared.pair_map.PairsAnswer.TheVariants.{TooMany};
ghost use Rattle.mig_libxl_form.specs.Emulators.{no_emulators, store_at, store_part, add_pairs, with_emulators, emulator_parts, ArePairsBegun, ArePartsBegun};

use mig_bytes::Memory;
use mig_guest::{Guest, PartKey, Parts};
use mig_policy::{PairMap, PairsAnswer};
use std::alloc::Global;
use std::collections::BTreeMap;
use std::marker::Model;

/// What is said of emulators: their stores, by the key of the part that each is, and their contexts.
#[derive(Drop)]
pub struct Emulators {
    alloc: Global,
    stores: BTreeMap<PartKey, PairMap>,
    contexts: Parts,
}

impl Model for Emulators {
    ghost use Rattle.mig_libxl_form.specs.Emulators.{EmulatorsOf, emulators_code, stores_seen};

    ghost Value = { EmulatorsOf };

    ghost coded = { emulators_code };

    ghost view = { λ e. record { stores = stores_seen e.stores.entries; contexts = e.contexts } };
}

impl Emulators {
    /// No emulators: neither pairs nor contexts.
    pub fn new(alloc: Global) -> Emulators
        ensures { result ≡ no_emulators }
    {
        Emulators {
            alloc,
            stores: BTreeMap::new(alloc),
            contexts: Parts::new(alloc),
        }
    }

    /// Adds the pairs that these bytes spell to the store of this key. After an error some of them are there, from the
    /// first on, and all else is as it was.
    pub fn add_pairs(&mut self, key: PartKey, bytes: &[u8]) -> Result<(), PairsAnswer>
        requires faultless { pairs_fault bytes.now ≡ None }
        requires small { length (text_of_map (store_at self.old.stores key)) ≤ most_pairs }
        ensures ok { OnOk result (self.new ≡ add_pairs self.old key (pairs_in bytes.now)) }
        ensures fits { OnOk result (length (text_of_map (put_pairs (store_at self.old.stores key) (pairs_in bytes.now))) ≤ most_pairs) }
        ensures too_many { IsErrOf result TooMany → most_pairs < length (text_of_map (put_pairs (store_at self.old.stores key) (pairs_in bytes.now))) }
        ensures err { OnErr result (ArePairsBegun self.old self.new key (pairs_in bytes.now)) }
    {
        if bytes.is_empty() {
            return Ok(());
        }
        if let Some(store) = self.stores.get_mut(&key) {
            return store.add(bytes);
        }
        let mut store = PairMap::new(self.alloc);
        store.add(bytes)?;
        match self.stores.insert(key, store) {
            Ok(_) => Ok(()),
            Err(_) => Err(PairsAnswer::Memory),
        }
    }

    /// Sets the context of this key. Where no memory is found, all is as it was.
    pub fn set_context(&mut self, key: PartKey, bytes: &[u8]) -> Result<(), Memory>
        ensures ok { OnOk result (self.new ≡ record self.old { contexts = maps.insert self.old.contexts key bytes.now }) }
        ensures err { OnErr result (self.new ≡ self.old) }
    {
        self.contexts.set(key, bytes)
    }

    /// Sets the parts that the stores are of a guest. Where no memory is found, the first of them are set.
    fn put_stores(&self, guest: &mut Guest) -> Result<(), Memory>
        ensures ok { OnOk result (guest.new ≡ record guest.old { parts = put_parts guest.old.parts (map store_part (maps.entries self.now.stores)) }) }
        ensures err { OnErr result (ArePartsBegun guest.old guest.new (map store_part (maps.entries self.now.stores))) }
    {
        for (key, store) in self.stores.iter() {
            let text = store.text()?;
            guest.set_part(*key, &text)?;
        }
        Ok(())
    }

    /// Sets the parts that the contexts are of a guest. Where no memory is found, the first of them are set.
    fn put_contexts(&self, guest: &mut Guest) -> Result<(), Memory>
        ensures ok { OnOk result (guest.new ≡ record guest.old { parts = put_parts guest.old.parts (maps.entries self.now.contexts) }) }
        ensures err { OnErr result (ArePartsBegun guest.old guest.new (maps.entries self.now.contexts)) }
    {
        let mut after = None;
        while let Some((key, bytes)) = self.contexts.next_behind(after) {
            guest.set_part(key, bytes)?;
            after = Some(key);
        }
        Ok(())
    }

    /// Sets the parts that the emulators are of a guest, their stores first. Where no memory is found, some of them are set,
    /// from the first on, and all else is as it was.
    pub fn put_into(&self, guest: &mut Guest) -> Result<(), Memory>
        ensures ok { OnOk result (guest.new ≡ with_emulators guest.old self.now) }
        ensures err { OnErr result (ArePartsBegun guest.old guest.new (emulator_parts self.now)) }
    {
        self.put_stores(guest)?;
        self.put_contexts(guest)
    }
}
