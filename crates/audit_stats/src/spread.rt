//! How values spread.
ghost use Rattle.std.specs.Prelude.{◌≡◌, ◌≤◌, ◌<◌, ◌^◌, None, OnErr, OnOk, true, min};
ghost use Rattle.std.specs.FinMap as finite;
ghost use Rattle.std.specs.Ordering.{nat_cmp};
ghost use Rattle.someip_tables.specs.Tables.{map_of};
ghost use Rattle.audit_stats.specs.Spreads.{bucket_at, is_first_in_bucket, low_end, no_values, number_of, quantile, raised, rank_of, summary_of, with_value};

use someip_tables::put_value;
use std::alloc::{AllocError, Global};
use std::collections::BTreeMap;
use std::marker::Model;

/// A greater value than this counts as this one, in the last bucket.
const LAST: u64 = 0xffff_ffff;

/// What is told of the values of a spread, in microseconds.
#[derive(Clone, Copy, Debug, PartialEq, Eq)]
pub struct Summary {
    /// The least value.
    pub least: u64,
    /// The median: the value of rank `n / 2`, rounded up, of `n` values, as far as buckets tell it.
    pub p50: u64,
    /// The value of rank `99 n / 100`, rounded up, of `n` values, as far as buckets tell it.
    pub p99: u64,
    /// The greatest value.
    pub greatest: u64,
}

/// How values spread, in microseconds: how many they are, the least and the greatest, and how many lie in each
/// bucket. A value below 64 has a bucket of its own. From 64 on each power of two is divided into 32 buckets, and
/// what is 2^32 or more counts in the last one.
///
/// There are at most 896 buckets, each made as it is used. A counter that has come to 2^64 - 1 stays.
#[derive(Drop)]
pub struct Spread {
    count: u64,
    least: u64,
    greatest: u64,
    buckets: BTreeMap<u64, u64>,
}

impl Model for Spread {
    ghost use Rattle.std.specs.Ordering.{nat_cmp};
    ghost use Rattle.someip_tables.specs.Tables.{map_of};
    ghost use Rattle.audit_stats.specs.Spreads.{Values, coded_values};

    ghost Value = { Values };

    ghost coded = { coded_values };

    ghost view = { λ s. record {
      count = s.count;
      least = s.least;
      greatest = s.greatest;
      buckets = map_of nat_cmp s.buckets.entries;
    } };
}

impl Spread {
    /// No values. It takes no memory.
    pub fn new(alloc: Global) -> Spread
        ensures { result ≡ no_values }
    {
        Spread {
            count: 0,
            least: u64::MAX,
            greatest: 0,
            buckets: BTreeMap::new(alloc),
        }
    }

    /// One more value comes. Memory is taken for a new bucket alone, and where it is refused nothing changes.
    pub fn add(&mut self, value: u64) -> Result<(), AllocError>
        ensures ok { OnOk result (self.new ≡ with_value value self.old) }
        ensures err { OnErr result (self.new ≡ self.old) }
        ensures grows { OnErr result (is_first_in_bucket value self.old ≡ true) }
    {
        raise(&mut self.buckets, low_end(value))?;
        self.count = self.count.saturating_add(1);
        self.least = self.least.min(value);
        self.greatest = self.greatest.max(value);
        Ok(())
    }

    /// How many values there are.
    pub fn count(&self) -> u64
        ensures { result ≡ self.now.count }
    {
        self.count
    }

    /// What is told of the values, if there are any.
    pub fn summary(&self) -> Option<Summary>
        ensures { result ≡ summary_of self.now }
    {
        if self.count == 0 {
            return None;
        }
        Some(Summary {
            least: self.least,
            p50: self.quantile(50),
            p99: self.quantile(99),
            greatest: self.greatest,
        })
    }

    /// A quantile, in percent.
    fn quantile(&self, percent: u64) -> u64
        requires { percent ≤ 100 }
        ensures { result ≡ quantile percent self.now }
    {
        bucket_at(&self.buckets, rank_of(percent, self.count)).max(self.least)
    }
}

/// The low end of a value's bucket.
fn low_end(value: u64) -> u64
    ensures { result ≡ low_end value }
{
    let mut rest = value.min(LAST);
    let mut width = 1;
    while rest >= 64 {
        rest /= 2;
        width *= 2;
    }
    rest * width
}

/// One more value lies in a bucket.
fn raise(buckets: &mut BTreeMap<u64, u64>, bucket: u64) -> Result<(), AllocError>
    ensures ok { OnOk result (map_of nat_cmp buckets.new.entries
        ≡ finite.insert (map_of nat_cmp buckets.old.entries) bucket
        (raised (number_of (finite.get (map_of nat_cmp buckets.old.entries) bucket)) 1)) }
    ensures err { OnErr result (map_of nat_cmp buckets.new.entries ≡ map_of nat_cmp buckets.old.entries) }
    ensures grows { OnErr result (finite.get (map_of nat_cmp buckets.old.entries) bucket ≡ None) }
{
    match buckets.get_mut(&bucket) {
        Some(number) => {
            *number = number.saturating_add(1);
            Ok(())
        }
        None => put_value(buckets, bucket, 1),
    }
}

/// The rank of a quantile of so many values, in percent.
fn rank_of(percent: u64, count: u64) -> u64
    requires { percent ≤ 100 }
    ensures { result ≡ rank_of percent count }
{
    count / 100 * percent + (count % 100 * percent + 99) / 100
}

/// The low end of the bucket that has the value of a rank.
fn bucket_at(buckets: &BTreeMap<u64, u64>, rank: u64) -> u64
    ensures { result ≡ bucket_at rank (finite.entries (map_of nat_cmp buckets.now.entries)) }
{
    let mut left = rank;
    for (low, number) in buckets.iter() {
        if left <= *number {
            return *low;
        }
        left -= *number;
    }
    0
}
