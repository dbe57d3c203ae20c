ghost use Rattle.std.specs.Prelude.{◌≡◌, IfOk, List, Some};
ghost use Rattle.mig_libxl.specs.Common.{or_stop, RisesOnReadFault, AgreesWithJudging, Kind, Pv, image_among, LibxlRecord, AreEmulators, StreamOf, Bare, Wrapped, IsStreamed, IsStreamedBare, ImageOf, image_at, image_behind};
ghost use Rattle.mig_guest.specs.Formed.{IsFormed};
ghost use Rattle.mig_libxl.specs.Placed.{IsPlacedStream};
ghost use Rattle.mig_libxl.specs.Reads.{IsStreamComparison, IsStreamReading, IsStreamTally};
ghost use Rattle.mig_libxl_form.specs.Emulators.{emulators_of, no_emulators};
ghost use Rattle.mig_outline.specs.Judges.{IsTally};
ghost use Rattle.mig_placing.specs.Compared.{IsComparison};
ghost use Rattle.mig_placing.specs.Placed.{IsPlacedImage};
ghost use Rattle.mig_restore.specs.Reads.{IsReading as IsImageReading};
ghost use Rattle.mig_restore_form.specs.Mean.{IsBegun};

use mig_bytes::{Memory, Source};
use mig_file::{FileSource, PageFile};
use mig_headers::Kind;
use mig_libxl_form::Emulators;
use mig_outline::{Tally, judge_image, judge_image_rest};
use mig_placing::{
    Comparison, PlacedGuest, compare_image, compare_image_rest, place_image, place_image_rest,
};
use mig_restore::{Reading, StreamAnswer, read_image, read_image_rest};
use std::alloc::Global;

/// What is kept of an image in a stream: what a reader of images answers, or a judge.
pub(crate) trait KeptImage: Drop {
    /// Whether it is what is kept of this image.
    ghost is_of: { Self → ImageOf → Type 0 };

    /// What holds of it also where the source tells no bytes.
    ghost kept: { Self → Type 0 };

    /// The kind of guest of the image.
    ghost kind_of: { Self → Kind };

    /// Whether it is what is kept of this stream.
    ghost is_of_stream: { Self → StreamOf → Type 0 };

    /// What holds of it then also where the source tells no bytes.
    ghost finished: { Self → Type 0 };

    /// The kind of guest of the image.
    fn kind(&self) -> Kind
        ensures value { result ≡ kind_of self.now }
        ensures same { (image : ImageOf) → is_of self.now image → result ≡ image.opening.kind };

    /// What is kept of the libxl stream that has this image and these emulators.
    fn finish(self, emulators: Emulators) -> Result<Self, Memory>
        requires kept { kept self }
        requires are { AreEmulators emulators }
        requires alone { kind_of self ≡ Pv → emulators ≡ no_emulators }
        ensures stream { IfOk result (λ whole. (image : ImageOf) (records : List LibxlRecord) → is_of self image → image_among records ≡ Some image → emulators ≡ emulators_of records → is_of_stream whole (Wrapped records)) }
        ensures finished { IfOk result finished };
}

/// What is kept of an image that is taken from such a source.
pub(crate) trait TakesImage<S: Source>: KeptImage {
    /// Takes an image.
    fn take(alloc: Global, src: &mut S) -> Result<Self, StreamAnswer>
        ensures read { AgreesWithJudging Self.is_of (S.left src.old) (S.left src.new) image_at (or_stop result) }
        ensures kept { IfOk result Self.kept }
        ensures faults { RisesOnReadFault (S.faults src.old) (S.faults src.new) (or_stop result) };

    /// Takes an image behind its marker, as a stream of its own.
    fn take_bare(alloc: Global, src: &mut S) -> Result<Self, StreamAnswer>
        ensures read { AgreesWithJudging (λ kept image. Self.is_of_stream kept (Bare image)) (S.left src.old) (S.left src.new) image_behind (or_stop result) }
        ensures finished { IfOk result Self.finished }
        ensures faults { RisesOnReadFault (S.faults src.old) (S.faults src.new) (or_stop result) };
}

impl KeptImage for Reading {
    ghost is_of = { IsImageReading };

    ghost kept = { λ reading. IsStreamedBare reading.guest };

    ghost kind_of = { λ reading. reading.guest.kind };

    ghost is_of_stream = { IsStreamReading };

    ghost finished = { λ reading. IsStreamed reading.guest };

    fn kind(&self) -> Kind {
        self.guest.kind()
    }

    fn finish(self, emulators: Emulators) -> Result<Reading, Memory> {
        let mut reading = self;
        emulators.put_into(&mut reading.guest)?;
        Ok(reading)
    }
}

impl<S: Source> TakesImage<S> for Reading {
    fn take(alloc: Global, src: &mut S) -> Result<Reading, StreamAnswer> {
        read_image(alloc, src)
    }

    fn take_bare(alloc: Global, src: &mut S) -> Result<Reading, StreamAnswer> {
        read_image_rest(alloc, src)
    }
}

impl KeptImage for Tally {
    ghost is_of = { IsTally };

    ghost kept = { λ _. Unit {0} };

    ghost kind_of = { λ tally. tally.kind };

    ghost is_of_stream = { IsStreamTally };

    ghost finished = { λ _. Unit {0} };

    fn kind(&self) -> Kind {
        self.kind
    }

    fn finish(self, _emulators: Emulators) -> Result<Tally, Memory> {
        Ok(self)
    }
}

impl<S: Source> TakesImage<S> for Tally {
    fn take(alloc: Global, src: &mut S) -> Result<Tally, StreamAnswer> {
        judge_image(alloc, src)
    }

    fn take_bare(alloc: Global, src: &mut S) -> Result<Tally, StreamAnswer> {
        judge_image_rest(alloc, src)
    }
}

impl KeptImage for Comparison {
    ghost is_of = { IsComparison };

    ghost kept = { λ _. Unit {0} };

    ghost kind_of = { λ comparison. comparison.tally.kind };

    ghost is_of_stream = { IsStreamComparison };

    ghost finished = { λ _. Unit {0} };

    fn kind(&self) -> Kind {
        self.tally.kind
    }

    fn finish(self, _emulators: Emulators) -> Result<Comparison, Memory> {
        Ok(self)
    }
}

impl<'a, P: PageFile> TakesImage<FileSource<'a, P>> for Comparison {
    fn take(alloc: Global, src: &mut FileSource<'a, P>) -> Result<Comparison, StreamAnswer> {
        compare_image(alloc, src)
    }

    fn take_bare(alloc: Global, src: &mut FileSource<'a, P>) -> Result<Comparison, StreamAnswer> {
        compare_image_rest(alloc, src)
    }
}

impl<P: PageFile> KeptImage for PlacedGuest<'_, P> {
    ghost is_of = { IsPlacedImage P.bytes };

    ghost kept = { λ placed. IsBegun placed.outline };

    ghost kind_of = { λ placed. placed.outline.kind };

    ghost is_of_stream = { IsPlacedStream P.bytes };

    ghost finished = { λ placed. IsFormed placed.outline };

    fn kind(&self) -> Kind {
        self.outline.kind()
    }

    fn finish(self, emulators: Emulators) -> Result<Self, Memory> {
        let mut placed = self;
        emulators.put_into(&mut placed.outline)?;
        Ok(placed)
    }
}

impl<'a, P: PageFile> TakesImage<FileSource<'a, P>> for PlacedGuest<'a, P> {
    fn take(alloc: Global, src: &mut FileSource<'a, P>) -> Result<Self, StreamAnswer> {
        place_image(alloc, src)
    }

    fn take_bare(alloc: Global, src: &mut FileSource<'a, P>) -> Result<Self, StreamAnswer> {
        place_image_rest(alloc, src)
    }
}
