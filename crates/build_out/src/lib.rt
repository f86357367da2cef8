// The build's bytes, written into the front of the caller's buffer.
#![tactic(auto)]

ghost use Rattle.std.specs.Prelude.{◌≡◌, ◌++◌, ◌+◌, ◌*◌, ◌≤◌, length, drop};
ghost use Rattle.bits.specs.Layout.{bytes_in, record_bytes, FitIn};
ghost use Rattle.bits.proofs.Records.{length_record};
ghost use Rattle.model.specs.Layouts.{build_header, partition_record, member_record, build_length};
ghost use Rattle.build.specs.Build.{build_header_numbers, partition_numbers, member_numbers, partition_bytes, member_bytes, build_bytes, FieldsFit};

use bits::{Record, put_records};
use build::BuildHeader;
use model::{Build, Member, Partition};

// version 4, M 7, n 6, partition count p 7
fn put_header(out: &mut [u8], header: BuildHeader)
    requires { (bytes_in build_header ≤ length out.old) × FitIn build_header (build_header_numbers header) }
    ensures { out.new ≡ record_bytes build_header (build_header_numbers header) ++ drop (bytes_in build_header) out.old }
{
    let number = ((u64::from(header.version) * 128 + u64::from(header.processors)) * 64
        + u64::from(header.tasks))
        * 128
        + u64::from(header.partitions);
    bits::put_number(out, Build::HEADER_BYTES, number);
}

// volume 7, first processor 6, spare 3
struct PartitionRecord;

impl Record for PartitionRecord {
    type Kind = Partition;

    const BYTES: usize = Partition::BYTES;

    ghost BYTES = { bytes_in (partition_record 1) };

    ghost record_bytes = { λ place. record_bytes (partition_record 1) (partition_numbers place 0) };

    ghost fits = { λ place. FitIn (partition_record 1) (partition_numbers place 0) };

    fn put(out: &mut [u8], place: Partition) {
        let number = (u64::from(place.volume) * 64 + u64::from(place.first)) * 8;
        bits::put_number(out, Partition::BYTES, number);
    }

    ghost record_long = { λ place. length_record (partition_record 1) (partition_numbers place 0) };
}

// partition 6, rank 5, worst response 20, spare 1
struct MemberRecord;

impl Record for MemberRecord {
    type Kind = Member;

    const BYTES: usize = Member::BYTES;

    ghost BYTES = { bytes_in member_record };

    ghost record_bytes = { λ member. record_bytes member_record (member_numbers member 0) };

    ghost fits = { λ member. FitIn member_record (member_numbers member 0) };

    fn put(out: &mut [u8], member: Member) {
        let number = ((u64::from(member.partition) * 32 + u64::from(member.rank)) * 1_048_576
            + u64::from(member.response))
            * 2;
        bits::put_number(out, Member::BYTES, number);
    }

    ghost record_long = { λ member. length_record member_record (member_numbers member 0) };
}

// Partition records, then task records into what remains.
fn put_build_records(out: &mut [u8], build: &Build)
    requires { FieldsFit build.now × (bytes_in (partition_record 1) * build.now.partitions + bytes_in member_record * build.now.tasks ≤ length out.old) }
    ensures { out.new ≡ (partition_bytes build.now build.now.partitions ++ member_bytes build.now build.now.tasks) ++ drop (bytes_in (partition_record 1) * build.now.partitions + bytes_in member_record * build.now.tasks) out.old }
{
    let partitions = build.partitions as usize;
    put_records::<PartitionRecord>(out, &build.places[..partitions]);
    let at = Partition::BYTES * partitions;
    put_records::<MemberRecord>(&mut out[at..], &build.members[..build.tasks as usize]);
}

// A build's bytes into the front of out: the header, then the records into what remains.
pub fn write_build(build: Build, out: &mut [u8])
    requires { FieldsFit build × (build_length 1 build.partitions build.tasks ≤ length out.old) }
    ensures { out.new ≡ build_bytes build ++ drop (build_length 1 build.partitions build.tasks) out.old }
{
    let header = BuildHeader {
        version: 1,
        processors: build.processors,
        tasks: build.tasks,
        partitions: build.partitions,
    };
    put_header(out, header);
    put_build_records(&mut out[Build::HEADER_BYTES..], &build);
}
