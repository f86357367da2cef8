// Records one after another, each read as one number, from which its fields are cut.
ghost use Rattle.std.specs.Prelude.{◌≡◌, ◌+◌, ◌*◌, ◌≤◌, ℕ, List, eqb};
ghost use Rattle.laws.specs.Every.{every};
ghost use Rattle.laws.specs.Joined.{filled};
ghost use Rattle.model.specs.Limits.{zero_partition, zero_member};
ghost use Rattle.build.specs.Taken.{partition_in, partition_spare_in, member_in, member_spare_in};

use model::{Member, Partition};

// A thing taken from its record, and the record's spare bits.
#[derive(Clone, Copy)]
pub struct Taken<T> {
    pub thing: T,
    pub spare: u64,
}

// How things of one kind are read, each from a record of so many bytes.
pub trait Records {
    type Kind: Copy;

    const BYTES: usize;

    ghost BYTES: { ℕ };

    ghost zero_kind: { Self.Kind };

    // What stands in the record that begins at a byte, and its spare bits.
    ghost thing_in: { List ℕ → ℕ → Self.Kind };

    ghost spare_in: { List ℕ → ℕ → ℕ };

    fn zero() -> Self::Kind
        ensures { result ≡ zero_kind };

    fn take(build: &[u8], from: usize) -> Taken<Self::Kind>
        requires { from ≤ 1024 }
        ensures thing { result.thing ≡ thing_in build.now from }
        ensures spare { result.spare ≡ spare_in build.now from };
}

// The things in so many records from a byte on, zero past them, and whether no spare bit of the records is set.
#[derive(Clone, Copy)]
pub struct TableTaken<T, const N: usize> {
    pub clear: bool,
    pub table: [T; N],
}

pub fn take_table<R: Records, const N: usize>(
    build: &[u8],
    from: usize,
    count: usize,
) -> TableTaken<R::Kind, N>
    requires room { count ≤ N }
    requires near { from + R.BYTES * count ≤ 1024 }
    ensures clear { result.clear ≡ every (λ i. eqb (R.spare_in build.now (from + R.BYTES * i)) 0) count }
    ensures table { result.table ≡ filled (λ i. R.thing_in build.now (from + R.BYTES * i)) R.zero_kind N count }
{
    let mut table = [R::zero(); N];
    let mut clear = true;
    for i in 0..count {
        let taken = R::take(build, from + R::BYTES * i);
        table[i] = taken.thing;
        clear &= taken.spare == 0;
    }
    TableTaken { clear, table }
}

// volume 7, first processor 6, spare 3
pub struct PartitionRecords;

impl Records for PartitionRecords {
    type Kind = Partition;

    const BYTES: usize = Partition::BYTES;

    ghost BYTES = { 2 };

    ghost zero_kind = { zero_partition };

    ghost thing_in = { partition_in };

    ghost spare_in = { partition_spare_in };

    fn zero() -> Partition {
        Partition::zero()
    }

    fn take(build: &[u8], from: usize) -> Taken<Partition> {
        let number = bits::number_at(build, from, Partition::BYTES);
        Taken {
            thing: Partition {
                volume: (number / 512 % 128) as u32,
                first: (number / 8 % 64) as u32,
            },
            spare: number % 8,
        }
    }
}

// partition 6, rank 5, worst response 20, spare 1
pub struct MemberRecords;

impl Records for MemberRecords {
    type Kind = Member;

    const BYTES: usize = Member::BYTES;

    ghost BYTES = { 4 };

    ghost zero_kind = { zero_member };

    ghost thing_in = { member_in };

    ghost spare_in = { member_spare_in };

    fn zero() -> Member {
        Member::zero()
    }

    fn take(build: &[u8], from: usize) -> Taken<Member> {
        let number = bits::number_at(build, from, Member::BYTES);
        Taken {
            thing: Member {
                partition: (number / 67_108_864 % 64) as u32,
                rank: (number / 2_097_152 % 32) as u32,
                response: (number / 2 % 1_048_576) as u32,
            },
            spare: number % 2,
        }
    }
}
