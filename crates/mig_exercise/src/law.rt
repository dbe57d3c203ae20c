ghost use Rattle.std.specs.Prelude.{◌≡◌, ◌≤◌, ◌*◌, ℕ, length, None};
ghost use Rattle.mig_guest.specs.Rounds.{most_rounds};
ghost use Rattle.mig_host_view.specs.Sound.{unsoundness};
ghost use Rattle.mig_host_view.specs.View.{view};
ghost use Rattle.mig_canon.specs.CanonStream.{canon_any};
ghost use Rattle.mig_machine_script.specs.Groups.{ran};
ghost use Rattle.mig_machine_script.specs.HostLines.{after};
ghost use Rattle.mig_machine.specs.Paced.{Paced};
ghost use Rattle.mig_exercise.specs.ExerciseHosts.{IsExerciseSize, host_of_exercise, data_count, exercise_canon_len};
ghost use Rattle.mig_exercise.specs.ExerciseScripts.{script_of_exercise};

/// The host of the exercise can be seen as a guest before and after each line of its script, and the canonical stream of that
/// guest has always the same length. However a save of it is paced, each round behind the first one sends frames of data alone.
pub fn exercise_is_saved()
    ensures sound { (seed n c : ℕ) → IsExerciseSize n → unsoundness (after (host_of_exercise seed n) (ran (script_of_exercise seed n) c)) ≡ None }
    ensures canon { (seed n c : ℕ) → IsExerciseSize n → length (canon_any (view (after (host_of_exercise seed n) (ran (script_of_exercise seed n) c)))) ≡ exercise_canon_len n }
    ensures entries { (seed n r c e : ℕ) → IsExerciseSize n → Paced (host_of_exercise seed n) (script_of_exercise seed n) r c e → e ≤ most_rounds * data_count n }
{}
