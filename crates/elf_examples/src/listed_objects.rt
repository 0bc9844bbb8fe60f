//! Lines as JSON objects.
ghost use Rattle.elf_examples.specs.ListedObjects.{ObjectsOfAFile, ObjectsOfFaults, ObjectsOfNames, ObjectsOfLines};

/// Works out lines as JSON objects.
#[tactic(auto, unfolding(elf_model::proofs::OnLiterals::on_literals, crate::proofs::OnExamples::on_examples))]
pub fn object_lines()
    ensures objects_of_a_file { ObjectsOfAFile }
    ensures objects_of_faults { ObjectsOfFaults }
    ensures objects_of_names { ObjectsOfNames }
    ensures objects_of_lines { ObjectsOfLines }
{}
