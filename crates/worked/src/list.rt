// The list of the worked examples.
ghost use Rattle.std.specs.Prelude.{◌≡◌};
ghost use Rattle.worked.specs.Examples.{Clocks, Limits, Records, Rules, Runs, Serves, Shapes, Shortest, Steady};

// A number, and not nothing, so that there is an answer that an edit can turn.
/// How many worked examples there are: each clause after the first states one.
pub fn examples() -> u8
    ensures value { result ≡ 9 }
    ensures serves { Serves }
    ensures shapes { Shapes }
    ensures runs { Runs }
    ensures rules { Rules }
    ensures steady { Steady }
    ensures shortest { Shortest }
    ensures limits { Limits }
    ensures clocks { Clocks }
    ensures records { Records }
{
    9
}
