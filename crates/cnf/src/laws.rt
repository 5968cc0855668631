// What the theory states, as contracts: without its proof a statement is not taken.
ghost use Rattle.cnf.specs.Laws.{BackboneMeans, EqualMeans, BackboneEqualsTrue, ReadMeans, WrittenWell, AppliedKeepsTruth};

// The tests over all rows of bits decide backbones and equal literals.
pub fn tests_decide()
    ensures backbone { BackboneMeans }
    ensures equal { EqualMeans }
    ensures constant { BackboneEqualsTrue }
{}

// Words are the clauses that were written, and replacing literals is replacing values.
pub fn words_stand()
    ensures read { ReadMeans }
    ensures written { WrittenWell }
    ensures applied { AppliedKeepsTruth }
{}
