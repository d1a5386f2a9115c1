//! What a run is on, as the words say it.
ghost use Rattle.std.specs.Prelude.{◌≡◌, ◌≤◌, IfOk, length};
ghost use Rattle.cli_words.specs.Ranges.{IsWithinLimits};
ghost use Rattle.run_replies.specs.Jobs as spec;
ghost use Rattle.run_replies.specs.Jobs.{IsInLimits};

use adfs_base::Shape;
use cli_words::Options;
use run_trace::Header;

/// What the words of a command that reads queries say that it is on. It takes no memory.
pub fn header_of(options: Options) -> Header
    requires files { length options.files ≡ 2 }
    requires limits { IsWithinLimits options }
    ensures header { result ≡ spec.header_of options }
    ensures limits { IsInLimits result }
{
    let Options {
        files,
        machines,
        workers,
        credits,
        broad,
        buffer,
        part,
        ..
    } = options;
    let mut names = files.into_names();
    let queries = names.remove(1);
    let manifest = names.remove(0);
    Header {
        manifest,
        queries,
        machines,
        workers,
        credits,
        broad,
        buffer,
        part,
    }
}

/// The numbers of a run, for so many stages.
pub fn shape_of(header: &Header, stages: u32) -> Shape
    requires limits { IsInLimits header.now }
    requires some { 1 ≤ stages }
    requires few { stages ≤ 26 }
    ensures { result ≡ spec.shape_of header.now stages }
{
    Shape::new(
        header.machines,
        header.workers,
        stages,
        header.credits,
        header.broad,
        header.buffer,
    )
    .unwrap()
}

/// The numbers that the words of `gen` say, for a plan of one stage.
pub fn generated_shape(options: &Options) -> Shape
    requires { IsWithinLimits options.now }
    ensures machines { result.machines ≡ options.now.machines }
{
    Shape::new(
        options.machines,
        options.workers,
        1,
        options.credits,
        options.broad,
        options.buffer,
    )
    .unwrap()
}
