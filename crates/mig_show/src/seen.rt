ghost use Rattle.std.specs.Prelude.{◌≡◌, [], None, false, OnOk, count_by};
ghost use Rattle.mig_show.specs.Common.{word_has_data};
ghost use Rattle.mig_show.specs.Fronts.{of_form};
ghost use Rattle.mig_show.specs.Seeing.{begun_record, counted_record, with_step, with_end};

use crate::record::Seen1;
use mig_headers::Kind;
use mig_records::RecordHead;
use mig_relay::Step;
use mig_restore_form::type_in;
use std::alloc::{AllocError, Global};
use std::marker::Model;

/// What was seen of a stream so far.
#[derive(Drop)]
pub(crate) struct Seen {
    pub(crate) wrapper: bool,
    pub(crate) version: Option<u32>,
    pub(crate) kind: Option<Kind>,
    /// The records that are whole.
    pub(crate) records: Vec<Seen1>,
    /// The record whose head was passed on, and of which bytes are still to come.
    hand: Option<Seen1>,
}

impl Model for Seen {
    ghost use Rattle.mig_show.specs.Seeing.{SeenState};

    ghost Value = { SeenState };

    ghost view = { λ s. record { front = record { wrapper = s.wrapper; version = s.version; kind = s.kind; records = s.records.items }; hand = s.hand } };
}

/// What a head says of a record.
fn begun(wrapped: bool, head: RecordHead) -> Seen1
    ensures { result ≡ begun_record wrapped head }
{
    Seen1 {
        wrapped,
        kind: head.kind,
        len: head.len,
        words: 0,
        pages: 0,
    }
}

/// How many of the words have data.
fn pages(words: &[u64]) -> usize
    ensures { result ≡ count_by word_has_data words.now }
{
    words
        .iter()
        .filter(|word| type_in(**word).has_data())
        .count()
}

/// The record, with what its words say.
fn counted(shown: Seen1, words: &[u64]) -> Seen1
    ensures { result ≡ counted_record words.now shown }
{
    Seen1 {
        words: words.len() as u64,
        pages: pages(words) as u64,
        ..shown
    }
}

impl Seen {
    /// Nothing was seen yet.
    pub(crate) fn new(alloc: Global) -> Seen
        ensures front { result.front ≡ of_form false }
        ensures hand { result.hand ≡ None }
    {
        Seen {
            wrapper: false,
            version: None,
            kind: None,
            records: Vec::new(alloc),
            hand: None,
        }
    }

    /// Notes what a step has passed on, and these words where they are that.
    pub(crate) fn take(&mut self, step: Step, words: &[u64])
        ensures { self.new ≡ with_step self.old step words.now }
    {
        match step {
            Step::Marker { wrapped } => self.wrapper = self.wrapper || wrapped,
            Step::Version(version) => self.version = Some(version),
            Step::Kind(kind) => self.kind = Some(kind),
            Step::Head { wrapped, head } => self.hand = Some(begun(wrapped, head)),
            Step::Words => {
                if let Some(shown) = self.hand {
                    self.hand = Some(counted(shown, words));
                }
            }
            Step::Piece | Step::Done => {}
        }
    }

    /// Behind a step: the record in hand is whole, unless some of its bytes are still to come.
    pub(crate) fn end(&mut self, is_in_record: bool) -> Result<(), AllocError>
        ensures { OnOk result (self.new ≡ with_end is_in_record self.old) }
    {
        if is_in_record {
            return Ok(());
        }
        if let Some(shown) = self.hand {
            self.records.push(shown)?;
        }
        self.hand = None;
        Ok(())
    }
}
