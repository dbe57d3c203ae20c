ghost use Rattle.std.specs.Prelude.{◌≡◌, ◌<◌, ◌+◌, ◌*◌, ◌-◌, ◌^◌, ℕ, List, [], ◌∷◌, length, map, Some, None};
ghost use Rattle.std.specs.FinMap as maps;
ghost use Rattle.mig_machine_laws.specs.Common.{IsExerciseSize, Pv, exercise_context, exercise_machine, exercise_p2m_list, exercise_page, exercise_type, exercise_write, first_contents, host_of_exercise, little_bytes, long_at, number, p2m_frame_count, p2m_key, page_of_zeros, range_with_len, script_of_exercise, shared_key, vcpu_key};
ghost use Rattle.mig_machine_laws.specs.WorkedExercise.{PageSays, eight_context, eight_machines, eight_types};
ghost use Rattle.mig_machine_script.specs.ScriptLines.LineOf.{Write};

/// The host of the exercise with 8 frames has these types and machine frames, and these parts.
#[tactic(auto, using(crate::proofs::WorkedExercise::frames, crate::proofs::WorkedExercise::none, crate::proofs::WorkedExercise::list, crate::proofs::WorkedExercise::context))]
pub fn worked_exercise_host()
    ensures shape { (seed : ℕ) → ((host_of_exercise seed 8).kind ≡ Pv) × ((host_of_exercise seed 8).width ≡ 8) }
    ensures types { map exercise_type (range_with_len 0 8) ≡ eight_types }
    ensures machines { map (exercise_machine 8) (range_with_len 0 8) ≡ eight_machines }
    ensures frames { (seed pfn : ℕ) → pfn < 8 → maps.get (host_of_exercise seed 8).frames pfn ≡ Some (record { type = exercise_type pfn; machine = exercise_machine 8 pfn; page = Some (exercise_page 8 (first_contents seed) pfn) }) }
    ensures none { (seed : ℕ) → maps.get (host_of_exercise seed 8).frames 8 ≡ None }
    ensures parts { (seed : ℕ) → (maps.get (host_of_exercise seed 8).parts p2m_key ≡ Some (exercise_p2m_list 8)) × (maps.get (host_of_exercise seed 8).parts shared_key ≡ Some page_of_zeros) × (maps.get (host_of_exercise seed 8).parts (vcpu_key 0) ≡ Some (exercise_context 8)) }
    ensures list { (length (exercise_p2m_list 8) ≡ 8) × (long_at (exercise_p2m_list 8) 0 ≡ 6) }
    ensures context { (place : ℕ) → place < 646 → long_at (exercise_context 8) place ≡ eight_context place }
{}

/// Its first two pages are zero. Each table names the next one in slot 0 with flags 0x67, and that of level 1 names the frame of
/// data. The P2M frame says the machine frame of each frame number, and the frame of data the first number of the seed. Of 600
/// frames the table of level 1 names the first 512 of data, PFNs 8 to 519, and the second P2M frame ends with PFN 599.
pub fn worked_exercise_pages()
    ensures zeros { (contents : ℕ → List ℕ) → PageSays (exercise_page 8 contents 0) [] 0 × PageSays (exercise_page 8 contents 1) [] 0 × PageSays page_of_zeros [] 0 }
    ensures tables { (contents : ℕ → List ℕ) → PageSays (exercise_page 8 contents 2) (0x1e8484067 ∷ []) 0 × PageSays (exercise_page 8 contents 3) (0x1e8483067 ∷ []) 0
        × PageSays (exercise_page 8 contents 4) (0x1e8482067 ∷ []) 0 × PageSays (exercise_page 8 contents 5) (0x1e8480067 ∷ []) 0 }
    ensures p2m { (contents : ℕ → List ℕ) → PageSays (exercise_page 8 contents 6) eight_machines (2 ^ 64 - 1) }
    ensures front { (seed : ℕ) → PageSays (exercise_page 8 (first_contents seed) 7) (number seed 0 ∷ []) 0 }
    ensures many { (contents : ℕ → List ℕ) → (long_at (exercise_page 600 contents 5) 0 ≡ 2000591 * 4096 + 0x67) × (long_at (exercise_page 600 contents 5) 511 ≡ 2000080 * 4096 + 0x67)
        × (long_at (exercise_page 600 contents 7) 87 ≡ 2000000) × (long_at (exercise_page 600 contents 7) 88 ≡ 2 ^ 64 - 1) }
{}

/// Seed 1 begins with these two numbers. There are so many P2M frames. The script for 10 frames begins with these two lines, and has
/// 20 of them with a dot behind each. An exercise has from 8 to 65536 frames.
pub fn worked_exercise_numbers()
    ensures numbers { (number 1 0 ≡ 7806831264735756412) × (number 1 1 ≡ 9396908728118811419) }
    ensures p2m { (p2m_frame_count 8 ≡ 1) × (p2m_frame_count 512 ≡ 1) × (p2m_frame_count 513 ≡ 2) × (p2m_frame_count 65536 ≡ 128) }
    ensures writes { (exercise_write 1 10 0 ≡ Write 9 0 (little_bytes 8 14673421054488193520)) × (exercise_write 1 10 1 ≡ Write 8 0 (little_bytes 8 10218303843513747618)) }
    ensures script { (seed : ℕ) → length (script_of_exercise seed 10) ≡ 40 }
    ensures bounds { IsExerciseSize 8 × IsExerciseSize 65536 × (IsExerciseSize 7 → ⊥) × (IsExerciseSize 65537 → ⊥) }
{}
