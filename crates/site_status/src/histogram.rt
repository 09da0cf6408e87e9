//! Histograms of times as text.
ghost use Rattle.std.specs.Prelude.{◌≡◌, ◌++◌, OnOk};
ghost use Rattle.site_status.specs.Histogram.{all_of, bound_text, buckets_text, count_text, histogram_text, last_text};

use crate::exposition::{Exposition, Family, Number, put_number};
use crate::times::{BOUNDS, TimesSnapshot};
use itoa::Buffer;
use std::alloc::AllocError;

/// How many there are in all, 2^64 - 1 if there are more.
fn all_among(counts: &[u64]) -> u64
    ensures { result ≡ all_of counts.now }
{
    counts
        .iter()
        .fold(0u64, |all, count| all.saturating_add(*count))
}

/// Writes what stands before the bound of a bucket.
fn put_bound(out: &mut Vec<u8>, name: &str) -> Result<(), AllocError>
    ensures { OnOk result (out.new.items ≡ out.old.items ++ bound_text name.now) }
{
    out.extend_from_slice(name.as_bytes())?;
    out.extend_from_slice(b"_bucket{le=\"")?;
    Ok(())
}

/// Writes what stands behind it.
fn put_count(out: &mut Vec<u8>, count: u64) -> Result<(), AllocError>
    ensures { OnOk result (out.new.items ≡ out.old.items ++ count_text count) }
{
    let mut buffer = Buffer::new();
    out.extend_from_slice(b"\"} ")?;
    out.extend_from_slice(buffer.format(count).as_bytes())?;
    out.push(b'\n')?;
    Ok(())
}

/// Writes how many are at most each bound, beside so many that are at most those before.
fn put_buckets(
    out: &mut Vec<u8>,
    name: &str,
    bounds: &[u64],
    counts: &[u64],
    before: u64,
) -> Result<(), AllocError>
    ensures { OnOk result (out.new.items ≡ out.old.items
        ++ buckets_text name.now bounds.now counts.now before) }
{
    let Some((bound, bounds)) = bounds.split_first() else {
        return Ok(());
    };
    let Some((count, counts)) = counts.split_first() else {
        return Ok(());
    };
    let most = before.saturating_add(*count);
    put_bound(out, name)?;
    put_number(out, Number::Nanos(*bound))?;
    put_count(out, most)?;
    put_buckets(out, name, bounds, counts, most)
}

/// Writes how many there are in all.
fn put_last(out: &mut Vec<u8>, name: &str, all: u64) -> Result<(), AllocError>
    ensures { OnOk result (out.new.items ≡ out.old.items ++ last_text name.now all) }
{
    put_bound(out, name)?;
    out.extend_from_slice(b"+Inf")?;
    put_count(out, all)?;
    Ok(())
}

impl Exposition {
    /// A histogram of times, in seconds.
    pub fn histogram(&mut self, family: &Family<'_>, told: &TimesSnapshot) -> Result<(), AllocError>
        ensures { OnOk result
            (self.new.text.items ≡ self.old.text.items ++ histogram_text family.now told.now) }
    {
        let all = all_among(told.counts.as_slice());
        self.heading(family)?;
        put_buckets(
            &mut self.text,
            family.name,
            &BOUNDS,
            told.counts.as_slice(),
            0,
        )?;
        put_last(&mut self.text, family.name, all)?;
        self.sample(family.name, "_sum", &[], Number::Nanos(told.nanos))?;
        self.sample(family.name, "_count", &[], Number::Whole(all))?;
        Ok(())
    }
}
