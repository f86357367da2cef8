// The build's records on the wire, read: each as one number, from which its fields are cut.
#![tactic(auto)]

mod table;

ghost use Rattle.std.specs.Prelude.{◌≡◌, ◌≤◌};
ghost use Rattle.model.specs.Limits.{most_tasks, most_partitions};
ghost use Rattle.build.specs.Build.{build_header_of};
ghost use Rattle.build.specs.Taken.{TakesBuild};

use model::Build;
use table::{MemberRecords, PartitionRecords, take_table};

// The header's fields.
#[derive(Clone, Copy)]
pub struct BuildHeader {
    pub version: u32,
    pub processors: u32,
    pub tasks: u32,
    pub partitions: u32,
}

// A build taken, and whether no spare bit is set. The flag stays: TakesBuild promises the build whatever it says.
#[derive(Clone, Copy)]
pub struct BuildTaken {
    pub clear: bool,
    pub build: Build,
}

// version 4, M 7, n 6, partition count p 7
pub fn read_build_header(build: &[u8]) -> BuildHeader
    ensures { result ≡ build_header_of build.now }
{
    let number = bits::number_at(build, 0, Build::HEADER_BYTES);
    BuildHeader {
        version: (number / 1_048_576 % 16) as u32,
        processors: (number / 8_192 % 128) as u32,
        tasks: (number / 128 % 64) as u32,
        partitions: (number % 128) as u32,
    }
}

// The build that stands in the bytes, of a header with counts within the limits; and whether no spare bit is set.
pub fn take_build(build: &[u8], header: BuildHeader) -> BuildTaken
    requires { (header ≡ build_header_of build.now) × (header.partitions ≤ most_partitions) × (header.tasks ≤ most_tasks) }
    ensures { TakesBuild build.now result }
{
    let partitions = header.partitions as usize;
    let places = take_table::<PartitionRecords, _>(build, Build::bytes(0, 0), partitions);
    let members = take_table::<MemberRecords, _>(
        build,
        Build::bytes(partitions, 0),
        header.tasks as usize,
    );
    let clear = places.clear & members.clear;
    let places = places.table;
    let members = members.table;
    BuildTaken {
        clear,
        build: Build {
            processors: header.processors,
            tasks: header.tasks,
            partitions: header.partitions,
            places,
            members,
        },
    }
}
