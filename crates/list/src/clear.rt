// The first n places of a run set to zero.
ghost use Rattle.std.specs.Prelude.{◌≡◌, replicate};
ghost use Rattle.search.specs.Run.{no_place};
ghost use Rattle.list.specs.Slices.{lists, Long, lay};

pub fn clear_places(dist: &mut [u64], site: &mut [u32], cue: &mut [u32], n: usize)
    requires { Long (lists dist.old site.old cue.old) n }
    ensures { lists dist.new site.new cue.new
        ≡ lay (lists dist.old site.old cue.old) 0 (replicate n no_place) }
{
    dist[..n].fill(0);
    site[..n].fill(0);
    cue[..n].fill(0);
}
