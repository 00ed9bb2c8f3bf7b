ghost use Rattle.replay.specs.Replays.{Replayed};

use crate::call::Call;
use model::source::Source;
use trial::trial::Trial;

// Makes a trial over the source and plays the calls on it, one after another, refused ones included. Each call keeps its answer
// beside its buffers, so that nothing is allocated on the way and nothing can fail midway.
pub fn replay<S: Source>(source: &S, calls: &mut [Call])
    ensures { Replayed (S.Source.model source.now) calls.old calls.new }
{
    let mut trial = Trial::over(source);
    for call in calls.iter_mut() {
        call.play(&mut trial);
    }
}
