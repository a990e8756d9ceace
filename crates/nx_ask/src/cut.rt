// Where questions are cut.
ghost use Rattle.std.specs.Prelude.{◌≡◌, ◌^◌, ◌<◌, ◌≤◌};
ghost use Rattle.nx_ask.specs.Cut.{IsBeforeLast};

/// How many of so many questions stand before the last worker's row, by equal parts of the workers. So each row has as many questions at last
/// as each other one, or one more, and none is empty where there are as many questions as workers.
pub fn before_last(count: usize, workers: u32) -> usize
    requires few { count < 2 ^ 32 }
    requires workers { 1 ≤ workers }
    ensures cut { IsBeforeLast count workers result }
    ensures alone { workers ≡ 1 → result ≡ 0 }
{
    count * (workers as usize - 1) / workers as usize
}
